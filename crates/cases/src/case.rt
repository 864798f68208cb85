// A case as bytes, four to a word. What lies past its end is zero, or nothing.
ghost use Rattle.std.specs.Prelude.{◌≡◌, ◌+◌, ◌*◌, ◌/◌, min, take};
ghost use Rattle.cases.specs.Case.{past_words, word_at};

pub fn word(case: &[u8], place: usize) -> u32
    ensures { result ≡ word_at case.now place }
{
    bigendian::number_at(past(case, place), 0, 4)
}

// A count, or the most that it may be.
pub fn word_within(case: &[u8], place: usize, most: usize) -> usize
    ensures { result ≡ min (word_at case.now place) most }
{
    (word(case, place) as usize).min(most)
}

// What follows so many words, nothing where no whole word does.
pub fn past(case: &[u8], count: usize) -> &[u8]
    ensures { result.now ≡ past_words case.now count }
{
    if case.len() / 4 <= count {
        return &case[..0];
    }
    &case[4 * count..]
}

// The number of 64 bits that two words make.
pub fn wide(case: &[u8], place: usize) -> u64
    ensures { result ≡ word_at (past_words case.now place) 0 * 4_294_967_296
        + word_at (past_words case.now place) 1 }
{
    let pair = past(case, place);
    word(pair, 0) as u64 * 4_294_967_296 + word(pair, 1) as u64
}

// A number of 64 bits of which two lists of words have the halves.
pub fn of_halves(higher: &[u8], lower: &[u8], place: usize) -> usize
    ensures { result ≡ word_at higher.now place * 4_294_967_296 + word_at lower.now place }
{
    word(higher, place) as usize * 4_294_967_296 + word(lower, place) as usize
}

// The bytes that stand first: how many there are, then the bytes, filled up to a whole word.
pub fn bytes(case: &[u8]) -> &[u8]
    ensures { result.now ≡ take (word_at case.now 0) (past_words case.now 1) }
{
    let given = past(case, 1);
    &given[..word_within(case, 0, given.len())]
}

// What follows those bytes.
pub fn past_bytes(case: &[u8]) -> &[u8]
    ensures { result.now ≡ past_words case.now (1 + (word_at case.now 0 + 3) / 4) }
{
    past(case, 1 + (word(case, 0) as usize + 3) / 4)
}
