// What takes a text piece by piece: a count of its bytes, or a list that it is put into.
ghost use Rattle.std.specs.Prelude.{◌≡◌, ◌≤◌, List, ℕ, length};
ghost use Rattle.printing.specs.Text.{decimal};
ghost use Rattle.printing.specs.Inner.Sinks.{SinkLaws};

pub(crate) trait Sink {
    // How many bytes more it can take.
    ghost left: { Self → ℕ };

    // It before a text, the text, and it after.
    ghost took: { Self → List ℕ → Self → Type 0 };

    fn put(&mut self, word: &[u8])
        requires { length word.now ≤ left self.old }
        ensures { took self.old word.now self.new };

    fn put_number(&mut self, x: u64)
        requires { length (decimal x) ≤ left self.old }
        ensures { took self.old (decimal x) self.new };

    ghost laws: { SinkLaws left took };
}

#[derive(Drop)]
pub(crate) struct Counter {
    pub(crate) len: usize,
}

// How many digits a number has; 0 has one, as 1 has.
fn decimal_len(x: u64) -> usize
    ensures { result ≡ length (decimal x) }
{
    x.max(1).ilog10() as usize + 1
}

impl Sink for Counter {
    ghost use Rattle.printing.specs.Inner.Counters.{counter_left, Counted, counter_laws};

    ghost left = { counter_left };

    ghost took = { Counted };

    fn put(&mut self, word: &[u8]) {
        self.len += word.len();
    }

    fn put_number(&mut self, x: u64) {
        self.len += decimal_len(x);
    }

    ghost laws = { counter_laws };
}

// The list from `at` on is free.
#[derive(Drop)]
pub(crate) struct Writer<'a> {
    pub(crate) text: &'a mut [u8],
    pub(crate) at: usize,
    pub(crate) ghost inside: { at ≤ length text.now },
}

impl<'a> Sink for Writer<'a> {
    ghost use Rattle.printing.specs.Inner.Writers.{writer_left, Wrote, writer_laws};

    ghost left = { writer_left };

    ghost took = { Wrote };

    fn put(&mut self, word: &[u8]) {
        let end = self.at + word.len();
        self.text[self.at..end].copy_from_slice(word);
        self.at = end;
    }

    fn put_number(&mut self, x: u64) {
        let mut digits = [0u8; 20];
        let k = io::decimal(x, &mut digits);
        self.put(&digits[..k]);
    }

    ghost laws = { writer_laws };
}
