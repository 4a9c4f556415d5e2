// What the programs share: answers on standard output, bytes and numbers from standard input.
#![tactic(auto)]

ghost use Rattle.std.specs.Prelude.{◌≡◌, ℕ, ◌+◌, ◌^◌, ◌≤◌, ◌<◌, IfOk, IfSome, IfNone, MatchOption, EachIndex, length, take, slice_get};
ghost use Rattle.std.specs.Io.{ReadsAtMost};
ghost use Rattle.std.specs.Io.KnownBytes.{Consumes, IsAtEnd};

use sheet::Refusal;
use std::io;
use std::io::Read;

pub fn number(rt: &impl Print, x: u64) -> io::Result<()> {
    rt.print(x)
}

// A space and a number.
pub fn word(rt: &impl Print, x: u64) -> io::Result<()> {
    print!(rt; " {x}")
}

pub fn newline(rt: &impl Print) -> io::Result<()> {
    rt.print("\n")
}

// A refusal's number and place, `0 0` where the call is accepted.
pub fn answer<T: Copy>(rt: &impl Print, outcome: Result<T, Refusal>) -> io::Result<()> {
    let (x, y) = match outcome {
        Ok(_) => (0, 0),
        Err(refusal) => (refusal.number(), refusal.place()),
    };
    print!(rt; "{x} {y}")
}

// Reads until the buffer is full or the reader ends. How many bytes it put at the buffer's start.
fn fill<R: Read>(reader: &mut R, buffer: &mut [u8]) -> io::Result<usize>
    ensures bound { ReadsAtMost result buffer.new }
    ensures bytes { IfOk result (λ n. Consumes (R.remaining reader.old) (R.remaining reader.new) (take n buffer.new)) }
    ensures end { IfOk result (λ n. n < length buffer.new → IsAtEnd (R.remaining reader.new)) }
{
    let mut done = 0;
    while done < buffer.len() {
        let n = reader.read(&mut buffer[done..])?;
        if n == 0 {
            break;
        }
        done += n;
    }
    Ok(done)
}

// The reader's next N bytes, or none where it ends before the last of them.
fn next_of<R: Read, const N: usize>(reader: &mut R) -> io::Result<Option<[u8; N]>>
    ensures bytes { IfOk result (λ x. MatchOption x (IfSome (R.remaining reader.old) (λ left. length left < N)) (λ bytes. Consumes (R.remaining reader.old) (R.remaining reader.new) bytes)) }
    ensures none { IfOk result (λ x. IfNone x (0 < N)) }
{
    let mut bytes = [0u8; N];
    if fill(reader, &mut bytes)? < N {
        return Ok(None);
    }
    Ok(Some(bytes))
}

// Reads until the buffer is full or the input ends. How many bytes it put at the buffer's start.
pub fn read_full(rt: &impl Input, buffer: &mut [u8]) -> io::Result<usize>
    ensures { ReadsAtMost result buffer.new }
{
    fill(&mut rt.reader(), buffer)
}

// The next N bytes of the input, or none where it ends before the last of them.
pub fn next<const N: usize>(rt: &impl Input) -> io::Result<Option<[u8; N]>>
    ensures { IfOk result (λ x. IfNone x (0 < N)) }
{
    next_of(&mut rt.reader())
}

// The next number of 16 bits, or none where the input ends before it or it is above `most`.
pub fn next_up_to(rt: &impl Input, most: usize) -> io::Result<Option<usize>>
    ensures { IfOk result (λ x. IfSome x (λ n. n ≤ most)) }
{
    let x = next(rt)?.map(u16::from_le_bytes).map(usize::from);
    Ok(x.filter(|n| *n <= most))
}

// Calls with each length, 16 bits of the input, as far as the input's end or a length above `longest`.
pub fn each_length<F: Fn(usize) -> io::Result<()>>(
    rt: &impl Input,
    most: usize,
    longest: usize,
    call: F,
) -> io::Result<()>
    requires { (size : ℕ) → size ≤ longest → F.pre call size }
{
    for _ in 0..most {
        let Some(size) = next_up_to(rt, longest)? else {
            return Ok(());
        };
        call(size)?;
    }
    Ok(())
}

// Calls with the next bytes of the input, so many or as many as it still has.
pub fn with_input<const LONGEST: usize, F: FnOnce(&[u8]) -> io::Result<()>>(
    rt: &impl Input,
    size: usize,
    call: F,
) -> io::Result<()>
    requires fits { LONGEST < 2 ^ 63 }
    requires room { size ≤ LONGEST }
    requires callable { (s : _) → length s.now ≤ size → F.pre call s }
{
    let mut buffer = [0u8; LONGEST];
    let n = read_full(rt, &mut buffer[..size])?;
    call(&buffer[..n])
}

// Calls with each input that stands behind its length.
pub fn each_input<const LONGEST: usize, F: Fn(&[u8]) -> io::Result<()>>(
    rt: &impl Input,
    most: usize,
    call: F,
) -> io::Result<()>
    requires fits { LONGEST < 2 ^ 63 }
    requires callable { (s : _) → length s.now ≤ LONGEST → F.pre call s }
{
    each_length(
        rt,
        most,
        LONGEST,
        |size| -> io::Result<()>
            requires fits { LONGEST < 2 ^ 63 }
            requires room { size ≤ LONGEST }
            requires callable { (s : _) → length s.now ≤ LONGEST → F.pre call s }
        { with_input::<LONGEST, _>(rt, size, &call) },
    )
}

// A list as one number.
pub fn digest<T: Copy + Into<u64>>(list: &[T]) -> u64 {
    list.iter().fold(0, |sum: u64, x| {
        (31 * sum + (*x).into() % 1_000_000_007) % 1_000_000_007
    })
}

// Writes 1, 2, 3 and so on.
pub fn count_up(list: &mut [u32])
    requires { length list.old < 2 ^ 32 }
    ensures { EachIndex list.new (λ i. slice_get list.new i ≡ Some (i + 1)) }
{
    for (i, x) in list.iter_mut().enumerate() {
        *x = i as u32 + 1;
    }
}

// The list of an accepted call: number by number up to 64, else as one number.
pub fn print_settled(rt: &impl Print, list: &[u32]) -> io::Result<()> {
    if 64 < list.len() {
        return word(rt, digest(list));
    }
    for x in list {
        word(rt, u64::from(*x))?;
    }
    Ok(())
}
