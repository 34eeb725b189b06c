// SHA-256 from C: what crates/sha256 answers, in an archive of its own.
#![tactic(auto)]

ghost use Rattle.sha256.specs.Call.{HashCall};

#[unsafe(no_mangle)]
pub extern "C" fn em73862_sha256(message: &[u8], digest: &mut [u8]) -> u8
    ensures { HashCall message.now digest.old result digest.new }
{
    sha256::em73862_sha256(message, digest)
}
