// Reading until a buffer is full; for the programs.
#![tactic(auto)]

ghost use Rattle.std.specs.Prelude.{◌≡◌, ◌≤◌, length, take};
ghost use Rattle.std.specs.Io.KnownBytes.{Consumes};

use std::io::Read;

// Reads until the part is full or the input ends; a read that fails ends it too. Answers how many bytes of the part were read.
// No clause says that the part is full where the input had more: a read may fail.
pub fn read_part<R: Read>(reader: &mut R, part: &mut [u8]) -> usize
    ensures within { result ≤ length part.new }
    ensures long { length part.new ≡ length part.old }
    ensures bytes { Consumes (R.remaining reader.old) (R.remaining reader.new) (take result part.new) }
{
    let mut done = 0;
    // A read may give fewer bytes than asked for, and `read_exact` of the library answers no count where the input ends early.
    while done < part.len() {
        match reader.read(&mut part[done..]) {
            Ok(0) => break,
            Ok(n) => done += n,
            Err(_) => break,
        }
    }
    done
}

#[cfg(test)]
mod tests {
    use super::*;
    use std::test::Fail;

    #[test]
    fn reads_to_the_end(rt: HostRuntime) -> Result<(), Fail> {
        let bytes = [1u8, 2, 3, 4, 5, 6];
        let mut input = bytes.as_slice();
        let mut part = [0u8; 4];
        assert_eq!(rt; read_part(&mut input, &mut part), 4);
        assert_eq!(rt; part, [1, 2, 3, 4]);
        assert_eq!(rt; read_part(&mut input, &mut part), 2);
        assert_eq!(rt; part, [5, 6, 3, 4]);
        assert_eq!(rt; read_part(&mut input, &mut part), 0);
        Ok(())
    }
}
