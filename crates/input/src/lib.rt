// A program's input, read into a buffer of its own.
#![tactic(auto)]

ghost use Rattle.std.specs.Prelude.{◌<◌, ◌≤◌, length, take, IfOk};
ghost use Rattle.std.specs.Io.KnownBytes.{Consumes, IsAtEnd};

use std::io;
use std::io::Read;

// Reads to the front of the buffer, until it is full or the input ends, and returns the number of bytes read. After an
// error it is not known how many were.
pub fn read_full<R: Read>(input: &mut R, buf: &mut [u8]) -> io::Result<usize>
    ensures within { IfOk result (λ n. n ≤ length buf.new) }
    ensures read { IfOk result (λ n. Consumes (R.remaining input.old) (R.remaining input.new) (take n buf.new)) }
    ensures end { IfOk result (λ n. n < length buf.new → IsAtEnd (R.remaining input.new)) }
{
    let mut done = 0;
    // A `while`, since each read says how far it came.
    while done < buf.len() {
        let n = input.read(&mut buf[done..])?;
        if n == 0 {
            break;
        }
        done += n;
    }
    Ok(done)
}

#[cfg(test)]
mod tests {
    use super::*;
    use std::test::Fail;

    // Gives its bytes two at a time, and fails at the read whose number it counts down to.
    #[derive(Drop)]
    struct Pieces<'a> {
        bytes: &'a [u8],
        reads: u32,
    }

    impl Read for Pieces<'_> {
        fn read(&mut self, buf: &mut [u8]) -> io::Result<usize> {
            if self.reads == 0 {
                return Err(io::Error::other("gone"));
            }
            self.reads -= 1;
            let most = buf.len().min(2);
            self.bytes.read(&mut buf[..most])
        }
    }

    #[test]
    fn reads_in_pieces(rt: HostRuntime) -> Result<(), Fail> {
        let mut buf = [7u8; 6];
        let mut short = Pieces {
            bytes: b"I,0,5",
            reads: 9,
        };
        assert_eq!(rt; read_full(&mut short, &mut buf)?, 5);
        assert_eq!(rt; buf, *b"I,0,5\x07");
        let mut long = Pieces {
            bytes: b"I,0,5\nT,0\n",
            reads: 9,
        };
        assert_eq!(rt; read_full(&mut long, &mut buf)?, 6);
        assert_eq!(rt; buf, *b"I,0,5\n");
        assert_eq!(rt; read_full(&mut long, &mut buf)?, 4);
        assert_eq!(rt; buf, *b"T,0\n5\n");
        assert_eq!(rt; read_full(&mut long, &mut buf)?, 0);
        Ok(())
    }

    #[test]
    fn fails_in_mid_stream(rt: HostRuntime) {
        let mut buf = [0u8; 6];
        let mut broken = Pieces {
            bytes: b"I,0,5\nT,0\n",
            reads: 2,
        };
        assert!(rt; read_full(&mut broken, &mut buf).is_err());
        assert!(rt; read_full(&mut broken, &mut buf).is_err());
    }
}
