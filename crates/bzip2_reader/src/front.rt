// The first bytes of a file.
ghost use Rattle.std.specs.Prelude.{◌≡◌, length};
ghost use Rattle.bzip2_reader.specs.Fronts.{is_bzip2, is_head};

/// The bytes that begin the first block of a stream.
const BLOCK: [u8; 6] = [0x31, 0x41, 0x59, 0x26, 0x53, 0x59];

/// The bytes that end a stream with no block.
const END: [u8; 6] = [0x17, 0x72, 0x45, 0x38, 0x50, 0x90];

/// Whether these four bytes begin a stream.
fn is_head(head: &[u8]) -> bool
    requires { length head.now ≡ 4 }
    ensures { result ≡ is_head head.now }
{
    head.starts_with(&[b'B', b'Z', b'h']) && b'1' <= head[3] && head[3] <= b'9'
}

/// Whether a file that begins with these bytes is one of bzip2. Ten bytes tell; fewer are of none.
pub fn is_bzip2(front: &[u8]) -> bool
    ensures { result ≡ is_bzip2 front.now }
{
    if front.len() < 4 {
        return false;
    }
    let (head, rest) = front.split_at(4);
    is_head(head) && (rest.starts_with(&BLOCK) || rest.starts_with(&END))
}
