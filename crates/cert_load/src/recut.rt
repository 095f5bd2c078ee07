// The program in blocks that a certificate is judged over.
ghost use Rattle.std.specs.Prelude.{◌≡◌, [], IfOk};
ghost use Rattle.bp_theory.specs.Claims.{IsCertified};
ghost use Rattle.cert_format.specs.Kept.{certificate_of};
ghost use Rattle.cert_text.specs.Programs.{GoesWith};
ghost use Rattle.cert_load.specs.Recut.{with_cuts};

use block_program::Blocked;
use cert_text::Cert;
use round_cut::{CutFault, with_cuts};
use std::alloc::{AllocError, Global};

/// The program in blocks that a valid certificate is judged over: the same with the certificate's cuts.
pub fn with_cuts_of(alloc: Global, b: &Blocked, cert: &Cert) -> Result<Blocked, AllocError>
    requires uncut { b.now.cuts ≡ [] }
    requires goes_with { GoesWith b.now (certificate_of cert.now) }
    requires valid { IsCertified b.now.named.program b.now.dec (certificate_of cert.now) }
    ensures { IfOk result (λ c. c ≡ with_cuts b.now (certificate_of cert.now).cuts) }
{
    match with_cuts(alloc, b, cert.cuts()) {
        Ok(c) => Ok(c),
        Err(CutFault::NoMemory) => Err(AllocError),
        Err(CutFault::Sign) => unreachable!(),
        Err(CutFault::Large) => unreachable!(),
    }
}
