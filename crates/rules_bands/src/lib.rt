// The list of steps by which phase two of a V0 frame is done, in bands of rows and blocks of columns: whether it is good.
#![tactic(auto)]

ghost use Rattle.std.specs.Prelude.{◌≡◌, true, ◌&&◌, ◌||◌, ◌-◌, ◌≤◌, ◌<◌, ltb, eqb, get_or};
ghost use Rattle.rules.specs.Limits.{most_side};
ghost use Rattle.rules.specs.Refusals.{answer_number};
ghost use Rattle.rules_bands.specs.Call.{list_refusal};
ghost use Rattle.rules_bands.specs.Bands.{late_rows, fits, blocks_per_band, good};

use rules::{Refusal, Size, V0Row};

// The most bands that a frame may be cut into.
pub const MOST_BANDS: usize = 64;

// How a frame is cut: its size, the number of bands, and the columns of a block.
// No invariant `fits`: refusal 11 is about cuts that don't.
#[derive(Clone, Copy)]
pub struct Cut {
    pub size: Size,
    pub bands: usize,
    pub block_width: usize,
}

impl Cut {
    // The rows from row 2 on.
    pub fn late_rows(self) -> usize
        ensures { result ≡ late_rows self.size }
    {
        self.size.height.saturating_sub(2)
    }

    // Whether a frame may be cut so.
    pub fn fits(self) -> bool
        ensures { result ≡ fits self }
    {
        let half = self.late_rows() / 2;
        1 <= self.block_width
            && self.block_width % V0Row::BLOCK == 0
            && 1 <= self.bands
            && self.bands <= MOST_BANDS.min(half.max(1))
    }

    // The blocks of a band.
    pub fn blocks_per_band(self) -> usize
        requires { 0 < self.block_width }
        ensures { result ≡ blocks_per_band self }
    {
        if self.late_rows() == 0 {
            return 0;
        }
        self.size.width.div_ceil(self.block_width)
    }

    // Whether a list does each block once, each ready when it comes. How many blocks are done in each band is all that is kept.
    pub fn is_good(self, steps: &[u32]) -> bool
        requires { (self.size.width ≤ most_side) × (fits self ≡ true) }
        ensures { result ≡ good self steps.now }
    {
        let blocks = self.blocks_per_band();
        let count = self.bands * blocks;
        if steps.len() != count {
            return false;
        }
        let mut done = [0u32; MOST_BANDS];
        for step in steps {
            // Casts, here and below, since the library has no `From` for them.
            let n = *step as usize;
            if count <= n {
                return false;
            }
            let band = n / blocks;
            let block = (n % blocks) as u32;
            if !is_next(done, band, block) {
                return false;
            }
            done[band] = block + 1;
        }
        true
    }

    // 11: a cut that doesn't fit; then 12: a list that isn't good.
    pub fn refuse_steps(self, steps: &[u32]) -> Result<(), Refusal>
        requires { self.size.width ≤ most_side }
        ensures { answer_number result ≡ list_refusal self steps.now }
    {
        if !self.fits() {
            return Err(Refusal::BadCut);
        }
        if !self.is_good(steps) {
            return Err(Refusal::BadSteps);
        }
        Ok(())
    }
}

// Whether a block is the next of its band, and the band above, if there is one, has done it.
fn is_next(done: [u32; MOST_BANDS], band: usize, block: u32) -> bool
    requires { band < 64 }
    ensures { result ≡ eqb (get_or done band 0) block && (eqb band 0 || ltb block (get_or done (band - 1) 0)) }
{
    done[band] == block && (band == 0 || block < done[band - 1])
}
