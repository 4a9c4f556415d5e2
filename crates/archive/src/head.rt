// The head of a record: `HCA`, 0, the archive version in 16 bits, two zeros.
ghost use Rattle.std.specs.Prelude.{◌≡◌, ◌≤◌, IfSome, length};
ghost use Rattle.archive.specs.Reader.{head_of};

use sheet::RuleSet;

const HEAD_1: [u8; 8] = *b"HCA\0\x01\0\0\0";

const HEAD_2: [u8; 8] = *b"HCA\0\x02\0\0\0";

const HEAD_3: [u8; 8] = *b"HCA\0\x03\0\0\0";

// What new records begin with.
pub(crate) const NEWEST_HEAD: [u8; 8] = HEAD_3;

// The rules of the archive version whose head the record has.
pub(crate) fn head_of(bytes: &[u8]) -> Option<RuleSet>
    ensures value { result ≡ head_of bytes.now }
    ensures long { IfSome result (λ rules. 8 ≤ length bytes.now) }
{
    if bytes.starts_with(&HEAD_1) {
        return Some(RuleSet::Archive1);
    }
    if bytes.starts_with(&HEAD_2) {
        return Some(RuleSet::Archive2);
    }
    if bytes.starts_with(&HEAD_3) {
        return Some(RuleSet::Archive3);
    }
    None
}
