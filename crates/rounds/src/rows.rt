// The rows of a round.
ghost use Rattle.rounds.specs.Private.{Rows};

// The rows that share a capacity, as many needs as weights, few and small enough: what a round's tests accept.
#[derive(Clone, Copy)]
pub struct Sharers<'a> {
    pub weights: &'a [u32],
    pub needs: &'a [u32],
    ghost rows: { Rows weights.now needs.now },
}
