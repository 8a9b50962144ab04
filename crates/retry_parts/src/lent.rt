// Lent bytes.
ghost use Rattle.std.specs.Prelude.{◌≡◌, length};
ghost use Rattle.retry_parts.specs.Fits.{fits_at, laid_if_fits};

// All of `bytes` over a run as long, byte by byte: by `copy_from_slice` the archive for C would need a function from outside.
fn cover(run: &mut [u8], bytes: &[u8])
    requires { length run.old ≡ length bytes.now }
    ensures { run.new ≡ bytes.now }
{
    for (i, place) in run.iter_mut().enumerate() {
        *place = bytes[i];
    }
}

// Lays all of `bytes` over what stands in `into` from a place on, if they fit there, and says whether they did.
#[tactic(auto, using(crate::proofs::Fitting::part_laid, crate::proofs::Fitting::fits_where, crate::proofs::Fitting::laid_where))]
pub fn lay(bytes: &[u8], into: &mut [u8], at: usize) -> bool
    ensures { (result ≡ fits_at into.old at bytes.now) × (into.new ≡ laid_if_fits into.old at bytes.now) }
{
    if into.len() < at || into.len() - at < bytes.len() {
        return false;
    }
    cover(&mut into[at..at + bytes.len()], bytes);
    true
}
