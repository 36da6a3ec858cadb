// What the module is given with an increment, for the driver on the server, for C.
ghost use Rattle.std.specs.Prelude.{◌≡◌};
ghost use Rattle.digest.specs.Sha1.{sha1};

use vmc::vmc_digest::Digest;

// The digest of some bytes, by value.
#[unsafe(no_mangle)]
pub extern "C" fn vmc_sha1(message: &[u8]) -> Digest
    ensures { result.bytes ≡ sha1 message.now }
{
    vmc::vmc_digest::vmc_sha1(message)
}
