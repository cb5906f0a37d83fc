//! Nodes, and where the entries of kept pairs stand.
ghost use Rattle.std.specs.Prelude.{◌≡◌, ◌^◌, ◌<◌, ◌+◌};
ghost use Rattle.dbm_core.specs.Half.{row_start, row_width};
ghost use Rattle.dbm_core.specs.Nodes.{flip};

/// The node of the other sign: of 2k it is 2k + 1, and of 2k + 1 it is 2k.
pub fn other_sign(i: usize) -> usize
    requires small { i < 2 ^ 63 }
    ensures flipped { result ≡ flip i }
{
    if i % 2 == 0 { i + 1 } else { i - 1 }
}

/// How many columns row i keeps.
pub fn width(i: usize) -> usize
    requires row { i < 32 }
    ensures width { result ≡ row_width i }
{
    2 * (i / 2) + 2
}

/// Where the entry of a kept pair stands.
pub fn place(i: usize, j: usize) -> usize
    requires row { i < 32 }
    requires column { j < row_width i }
    ensures place { result ≡ row_start i + j }
    ensures small { result < 544 }
{
    let half = i / 2;
    let before = 2 * (half * (half + 1));
    if i % 2 == 0 {
        before + j
    } else {
        before + 2 * half + 2 + j
    }
}
