// The weights of the UFR growth, a term each: the table of fixed weights of DNB's note of 2012 (METHOD, Sources).
ghost use Rattle.std.specs.Prelude.{◌≡◌, ◌≤◌};
ghost use Rattle.method.specs.Curve.{weight};

// The term after the last that is not weighed.
const FIRST_WEIGHED_TERM: usize = 21;

// In thousandths, of the terms 21 to 60.
const WEIGHTS: [u64; 40] = [
    86, 186, 274, 351, 420, 481, 536, 584, 628, 666, 701, 732, 760, 785, 808, 828, 846, 863, 878,
    891, 903, 914, 923, 932, 940, 947, 954, 960, 965, 970, 974, 978, 982, 985, 988, 990, 993, 995,
    997, 998,
];

pub fn weight_of(t: usize) -> u64
    requires { (21 ≤ t) × (t ≤ 60) }
    ensures is { result ≡ weight t }
    ensures most { result ≤ 1000 }
{
    let i = t - FIRST_WEIGHED_TERM;
    WEIGHTS[i]
}
