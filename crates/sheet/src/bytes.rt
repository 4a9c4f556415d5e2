// Numbers of one, two and four bytes, little-endian.
ghost use Rattle.std.specs.Prelude.{◌≡◌, ◌+◌, ◌≤◌, ◌<◌, length};
ghost use Rattle.sheet.specs.Layout.{byte, le16, le32};

pub fn read8(s: &[u8], at: usize) -> u32
    requires { at < length s.now }
    ensures { result ≡ byte s.now at }
{
    u32::from(s[at])
}

pub fn read16(s: &[u8], at: usize) -> u32
    requires { at + 2 ≤ length s.now }
    ensures { result ≡ le16 s.now at }
{
    u32::from(u16::from_le_bytes([s[at], s[at + 1]]))
}

pub fn read32(s: &[u8], at: usize) -> u32
    requires { at + 4 ≤ length s.now }
    ensures { result ≡ le32 s.now at }
{
    u32::from_le_bytes([s[at], s[at + 1], s[at + 2], s[at + 3]])
}
