// The eight neighbours of a pixel: `NEIGHBOURS` of dbs.rs as a decision over codes 0 to 7, and
// `neighbour`, which finds the one that lies inside the image.
#![tactic(auto)]

ghost use Rattle.std.specs.Prelude.{◌≡◌, ◌<◌};
ghost use Rattle.neighbour.specs.Neighbour.{offset_of, shifted_of, neighbour_of};

// The offset (dx, dy) that a code names; other codes name none.
// Kept: a code is document 01's number from 0 to 7, and each public function here takes any code: a narrower type would ask more of callers.
pub fn offset_at(code: u8) -> Option<(i8, i8)>
    ensures { result ≡ offset_of code }
{
    match code {
        0 => Some((-1, -1)),
        1 => Some((0, -1)),
        2 => Some((1, -1)),
        3 => Some((-1, 0)),
        4 => Some((1, 0)),
        5 => Some((-1, 1)),
        6 => Some((0, 1)),
        7 => Some((1, 1)),
        _ => None,
    }
}

// v + d, where it lies below n.
pub fn shifted(v: usize, d: i8, n: usize) -> Option<usize>
    ensures { result ≡ shifted_of v d n }
{
    v.checked_add_signed(isize::from(d)).filter(|m| *m < n)
}

// The neighbour of (x, y) that a code names, in an image of w columns and h rows: none where it would lie outside, or no code names it.
pub fn neighbour(code: u8, x: usize, y: usize, w: usize, h: usize) -> Option<(usize, usize)>
    requires { (x < w) × (y < h) }
    ensures { result ≡ neighbour_of code x y w h }
{
    let (dx, dy) = offset_at(code)?;
    Some((shifted(x, dx, w)?, shifted(y, dy, h)?))
}
