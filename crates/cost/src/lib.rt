// What a toggle and a swap cost. Nothing here reads the image.
#![tactic(auto)]

ghost use Rattle.std.specs.Prelude.{◌≡◌};
ghost use Rattle.cost.specs.Cost.{toggle_term, swap_term, toggle_cost, swap_cost};

use color::YyCxCz;

fn toggle_term(p: f64, a: f64, c: f64) -> f64
    ensures { result ≡ toggle_term p a c }
{
    p * a * a + 2.0 * a * c
}

fn swap_term(g: f64, a: f64, c: f64, cn: f64) -> f64
    ensures { result ≡ swap_term g a c cn }
{
    2.0 * a * a * g + 2.0 * a * (c - cn)
}

// p: the kernels at their centres; a: the change of the pixel; c: `cpe` there.
#[tactic(auto, unfolding(crate::specs::Cost::toggle_cost))]
pub fn toggle_cost(p: YyCxCz, a: YyCxCz, c: YyCxCz) -> f64
    ensures { result ≡ toggle_cost p a c }
{
    0.0 + toggle_term(p.yy, a.yy, c.yy)
        + toggle_term(p.cx, a.cx, c.cx)
        + toggle_term(p.cz, a.cz, c.cz)
}

// g: the kernels at their centres less beside them; cn: `cpe` at the neighbour.
#[tactic(auto, unfolding(crate::specs::Cost::swap_cost))]
pub fn swap_cost(g: YyCxCz, a: YyCxCz, c: YyCxCz, cn: YyCxCz) -> f64
    ensures { result ≡ swap_cost g a c cn }
{
    0.0 + swap_term(g.yy, a.yy, c.yy, cn.yy)
        + swap_term(g.cx, a.cx, c.cx, cn.cx)
        + swap_term(g.cz, a.cz, c.cz, cn.cz)
}
