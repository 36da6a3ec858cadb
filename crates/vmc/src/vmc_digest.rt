// What the module is given with an increment, for the driver on the server.
ghost use Rattle.std.specs.Prelude.{◌≡◌};
ghost use Rattle.digest.specs.Sha1.{sha1};

use digest::sha1::sha1;

#[repr(C)]
#[derive(Clone, Copy)]
pub struct Digest {
    pub bytes: [u8; 20],
}

// The digest of some bytes, by value.
pub fn vmc_sha1(message: &[u8]) -> Digest
    ensures { result.bytes ≡ sha1 message.now }
{
    let bytes = sha1(message);
    Digest { bytes }
}
