ghost use Rattle.std.specs.Prelude.{◌≡◌};
ghost use Rattle.pointshares.specs.Private.{Rows, totals};

// TRE and TMDQ.
#[derive(Clone, Copy)]
pub struct Totals {
    pub entitlement: u64,
    pub mdq: u32,
}

impl Totals {
    pub(crate) fn of(entitlements: &[u64], mdqs: &[u32]) -> Self
        requires { Rows entitlements.now mdqs.now }
        ensures { result ≡ totals entitlements.now mdqs.now }
    {
        Self {
            entitlement: entitlements.iter().sum(),
            mdq: mdqs.iter().sum(),
        }
    }
}
