// Rotations and reflections.
ghost use Rattle.std.specs.Prelude.{◌≡◌};
ghost use Rattle.std.specs.Float.{binary64};
ghost use Rattle.model.specs.Jacobi as Jacobi;
ghost use Rattle.model.specs.Householder as Householder;

use linalg::jacobi::JacobiRotation;

// c, s and r of the rotation that makes (r, 0) of (p, q).
#[unsafe(no_mangle)]
pub extern "C" fn vx_rotg(p: f64, q: f64, c: &mut f64, s: &mut f64, r: &mut f64)
    ensures { (record { rot = record { c = c.new; s = s.new }; r = r.new }) ≡ Jacobi.rotg binary64 p q }
{
    let g = linalg::jacobi::rotg(p, q);
    *c = g.rot.c;
    *s = g.rot.s;
    *r = g.r;
}

// c and s of the rotation back.
#[unsafe(no_mangle)]
pub extern "C" fn vx_adjoint(c: f64, s: f64, new_c: &mut f64, new_s: &mut f64)
    ensures { (record { c = new_c.new; s = new_s.new }) ≡ Jacobi.adjoint (record { c = c; s = s }) }
{
    let j = linalg::jacobi::adjoint(JacobiRotation { c, s });
    *new_c = j.c;
    *new_s = j.s;
}

// The pair x, y with the rotation applied on the right.
#[unsafe(no_mangle)]
pub extern "C" fn vx_apply(c: f64, s: f64, x: f64, y: f64, new_x: &mut f64, new_y: &mut f64)
    ensures { (record { x = new_x.new; y = new_y.new }) ≡ Jacobi.apply_right binary64 (record { c = c; s = s }) x y }
{
    let p = linalg::jacobi::apply_on_the_right(JacobiRotation { c, s }, x, y);
    *new_x = p.x;
    *new_y = p.y;
}

// The head, tau, head_with_beta_inv and the norm of a reflection, which writes the tail; turned
// away, the four are +0.
#[unsafe(no_mangle)]
pub extern "C" fn vx_make_householder_in_place(
    head: f64,
    tail: &mut [f64],
    new_head: &mut f64,
    tau: &mut f64,
    head_with_beta_inv: &mut f64,
    norm: &mut f64,
) -> usize
    ensures { (record { answer = result; head = new_head.new; tau = tau.new; head_with_beta_inv = head_with_beta_inv.new; norm = norm.new; tail = tail.new }) ≡ Householder.make_householder_in_place binary64 head tail.old }
{
    match linalg::householder::make_householder_in_place(head, tail) {
        Ok(r) => {
            *new_head = r.head;
            *tau = r.tau;
            *head_with_beta_inv = r.head_with_beta_inv;
            *norm = r.norm;
            0
        }
        Err(refusal) => {
            *new_head = 0.0;
            *tau = 0.0;
            *head_with_beta_inv = 0.0;
            *norm = 0.0;
            usize::from(refusal)
        }
    }
}
