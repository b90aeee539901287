// Columns of flags as bytes: 1 for yes, 0 for no, and no other byte is a flag.
#![tactic(auto)]

ghost use Rattle.std.specs.Prelude.{◌≡◌, map};
ghost use Rattle.flags.specs.Flags.{bit, flag, flags_ok};

// The flags that bytes stand for; is every byte a flag? No turn depends on the one before, so that many are taken at once.
pub fn read(bytes: &[u8; 128], flags: &mut [bool; 128]) -> bool
    ensures is { (result ≡ flags_ok bytes.now) × (flags.new ≡ map flag bytes.now) }
{
    let mut most: u8 = 0;
    for i in 0..128 {
        flags[i] = bytes[i] == 1;
        most = most.max(bytes[i]);
    }
    most <= 1
}

// A flag as a byte.
pub fn byte(flag: bool) -> u8
    ensures is { result ≡ bit flag }
{
    u8::from(flag)
}

// Flags into bytes.
pub fn write(flags: &[bool; 128], bytes: &mut [u8; 128])
    ensures is { bytes.new ≡ map bit flags.now }
{
    for i in 0..128 {
        bytes[i] = byte(flags[i]);
    }
}
