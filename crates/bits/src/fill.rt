// A slice filled from another.
ghost use Rattle.std.specs.Prelude.{◌≡◌, length, map};

// What f makes of each element of `from`, in `to`. By index there: of a loop over iter_mut and zip, a proof knows only
// the length of what is filled.
pub fn fill<A: Copy, B: Copy, F: Fn(A) -> B>(to: &mut [B], from: &[A], f: F)
    requires { F.IsAlwaysCallable f × (length from.now ≡ length to.old) }
    ensures { (g : A → B) → ((x : A) (y : B) → F.post f x y → y ≡ g x) → to.new ≡ map g from.now }
{
    for (i, &x) in from.iter().enumerate() {
        to[i] = f(x);
    }
}
