// n and the stride of a line, which stand after its lengths.
ghost use Rattle.std.specs.Prelude.{◌≡◌, ◌+◌, ◌<◌, length, get_or, drop, MatchOption};
ghost use Rattle.replay_forms.specs.Lines.{more};

// Where a line has its stride: a line of the base has none, and n serves for it.
#[derive(Clone, Copy)]
pub enum Stride {
    OfRows,
    Given,
}

// n and the stride, and the words after them.
#[derive(Clone, Copy)]
pub struct Head<'a> {
    pub n: usize,
    pub ld: usize,
    pub rest: &'a [u64],
}

impl Stride {
    pub fn head(self, w: &[u64]) -> Option<Head>
        ensures cases { MatchOption result (length w.now < 1 + more self) (λ h. (h.n ≡ get_or w.now 0 0) × (h.ld ≡ get_or w.now (more self) 0) × (h.rest.now ≡ drop (1 + more self) w.now) × (length h.rest.now + 1 + more self ≡ length w.now)) }
    {
        match self {
            Stride::OfRows => {
                let (&n, rest) = w.split_first()?;
                Some(Head {
                    n: n as usize,
                    ld: n as usize,
                    rest,
                })
            }
            Stride::Given => {
                let (&[n, ld], rest) = w.split_first_chunk::<2>()?;
                Some(Head {
                    n: n as usize,
                    ld: ld as usize,
                    rest,
                })
            }
        }
    }
}
