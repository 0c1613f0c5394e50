// Numbers that stand a step apart in a list.
ghost use Rattle.std.specs.Prelude.{◌≡◌, ◌+◌, ◌*◌, ◌<◌, ◌≤◌, length};

// `count` numbers from place `start` on, `step` places apart.
#[derive(Clone, Copy)]
pub struct Strided<'a> {
    pub list: &'a [f64],
    pub start: usize,
    pub step: usize,
    pub count: usize,
    ghost inside: { start + step * count < length list.now + step },
}

impl<'a> Strided<'a> {
    ghost use Rattle.solve.specs.Numbers.{numbers};

    // `count` numbers side by side, from place `start` on.
    pub fn run(list: &'a [f64], start: usize, count: usize) -> Strided<'a>
        requires { start + count ≤ length list.now }
        ensures { (result.list.now ≡ list.now) × (result.start ≡ start) × (result.step ≡ 1) × (result.count ≡ count) }
    {
        Strided {
            list,
            start,
            step: 1,
            count,
        }
    }

    // The k-th number.
    pub fn at(self, k: usize) -> f64
        requires { k < self.count }
        ensures { result ≡ numbers self.entry k }
    {
        self.list[self.start + self.step * k]
    }
}
