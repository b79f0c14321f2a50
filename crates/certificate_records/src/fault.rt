// Why a line is no certificate.
ghost use Rattle.std.specs.Prelude.{◌≡◌};
ghost use Rattle.certificate_records.specs.declared.fault.CertificateFault.TheVariants as fault;

use cpe_rows::Memory;

/// The first cause why a line is no certificate, although its member `do` is `proof`.
#[derive(Clone, Copy, Debug, PartialEq, Eq)]
pub enum CertificateFault {
    /// The member `id` is no id of a statement.
    Id,
    /// The member `why` has not its form.
    Why,
    /// Memory ran out.
    Memory,
}

impl From<Memory> for CertificateFault {
    ghost from_gives = { λ _ e. e ≡ fault.Memory };

    fn from(_error: Memory) -> CertificateFault {
        CertificateFault::Memory
    }
}
