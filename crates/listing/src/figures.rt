// The one list of the money figures and their names.
#![tactic(auto, unfolding(method::specs::Listing::ascii, model::specs::Numbers::table))]

ghost use Rattle.std.specs.Prelude.{◌≡◌, ◌≤◌, All, length, map};
ghost use Rattle.method.specs.Listing.{named_figures};

use model::figures::{Bracket, Figures};

/// The ten money figures, in cents, under their names, in the order of the listing and of the window's points 121 to 130. Field by field,
/// since the struct that C lays out has no list of its fields.
pub fn named_figures(f: Figures) -> [(&'static [u8], Bracket); 10]
    ensures named { map (λ named. (named.0.now, named.1)) result ≡ named_figures f }
    ensures short { All (λ named. length named.0.now ≤ 2) result }
{
    [
        (b"L", f.l),
        (b"B", f.b),
        (b"A", f.a),
        (b"S1", f.s1),
        (b"S2", f.s2),
        (b"S3", f.s3),
        (b"S4", f.s4),
        (b"S5", f.s5),
        (b"S6", f.s6),
        (b"S", f.s),
    ]
}
