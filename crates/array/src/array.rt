// The array and its limit.
ghost use Rattle.std.specs.Prelude.{◌≡◌, ℕ, ◌<◌, vec_len};
ghost use Rattle.port.specs.declared.WritePort.TheVariants.{Holding};
ghost use Rattle.array.specs.Limits.{depth_over};

use port::WritePort;

/// The largest depth of an array.
pub const MAX_WORDS: usize = 1_024;

/// A memory over a buffer of cells: a cell for each word, and the latch of the held word after them.
// The depth stands beside the cells, since the cells above the latch are the caller's.
#[derive(Drop)]
pub struct Array<W> {
    pub(crate) cells: Vec<W>,
    pub(crate) depth: usize,
    pub(crate) used: bool,
    pub(crate) port: WritePort,
    ghost deep: { depth ≡ depth_over (vec_len cells) },
    ghost within: { (x : ℕ) → port ≡ Holding x → x < depth },
}
