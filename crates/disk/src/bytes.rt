// A sector as bytes, low byte first on every processor.
ghost use Rattle.std.specs.Prelude.{◌≡◌, ◌+◌, ◌≤◌, length};
ghost use Rattle.disk.specs.Bytes.{bytes_of, words_of, number_at};

// The bytes of 128 words.
fn fill_bytes(bytes: &mut [u8], words: &[u32; 128])
    requires { length bytes.old ≡ 512 }
    ensures { bytes.new ≡ bytes_of words.now }
{
    for i in 0..128 {
        bytes[4 * i..4 * i + 4].copy_from_slice(&words[i].to_le_bytes());
    }
}

// The number of four bytes from a place on.
fn number_at(bytes: &[u8], from: usize) -> u32
    requires { from + 4 ≤ length bytes.now }
    ensures { result ≡ number_at bytes.now from }
{
    u32::from_le_bytes([
        bytes[from],
        bytes[from + 1],
        bytes[from + 2],
        bytes[from + 3],
    ])
}

// The words of 512 bytes.
fn fill_words(words: &mut [u32], bytes: &[u8])
    requires { (length words.old ≡ 128) × (length bytes.now ≡ 512) }
    ensures { words.new ≡ words_of bytes.now }
{
    for i in 0..128 {
        words[i] = number_at(bytes, 4 * i);
    }
}

// A sector's bytes, for the device.
// Shut out: high byte first.
#[unsafe(no_mangle)]
pub extern "C" fn disk_to_bytes(words: &[u32; 128], bytes: &mut [u8; 512])
    ensures { bytes.new ≡ bytes_of words.now }
{
    fill_bytes(bytes, words);
}

// A sector's words, from the device.
#[unsafe(no_mangle)]
pub extern "C" fn disk_from_bytes(bytes: &[u8; 512], words: &mut [u32; 128])
    ensures { words.new ≡ words_of bytes.now }
{
    fill_words(words, bytes);
}
