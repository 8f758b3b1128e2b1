// A writer into lent bytes: the mirror of the reader's cursor.
ghost use Rattle.std.specs.Prelude.{◌≡◌, ◌+◌, ◌*◌, ◌≤◌, length};
ghost use Rattle.model.specs.Numbers.{bytes_of};
ghost use Rattle.fields.specs.Wrote.{Wrote, bytes_of_each};

// The bytes that are lent, and how many of them are written.
#[derive(Drop)]
pub struct Writer<'a> {
    pub out: &'a mut [u8],
    pub at: usize,
}

impl<'a> Writer<'a> {
    pub fn new(out: &'a mut [u8]) -> Self
        ensures same { result.out.ghost_name ≡ out.entry.ghost_name }
        ensures held { result.out.now ≡ out.old }
        ensures at { result.at ≡ 0 }
    {
        Writer { out, at: 0 }
    }

    pub fn put(&mut self, bytes: &[u8])
        requires { self.old.at + length bytes.now ≤ length self.old.out.now }
        ensures { Wrote self.old bytes.now self.new }
    {
        let end = self.at + bytes.len();
        self.out[self.at..end].copy_from_slice(bytes);
        self.at = end;
    }

    // A number in 8 bytes or more, the highest first: those before its last 8 are 0.
    fn wide_number(&mut self, width: usize, v: u64)
        requires room { self.old.at + width ≤ length self.old.out.now }
        requires wide { 8 ≤ width }
        ensures { Wrote self.old (bytes_of width v) self.new }
    {
        for _ in 0..width - 8 {
            self.put(&[0]);
        }
        self.put(&v.to_be_bytes());
    }

    // The lowest `width` bytes of a number, the highest first.
    pub fn number(&mut self, width: usize, v: u64)
        requires room { self.old.at + width ≤ length self.old.out.now }
        ensures { Wrote self.old (bytes_of width v) self.new }
    {
        if width > 8 {
            self.wide_number(width, v);
            return;
        }
        let bytes = v.to_be_bytes();
        self.put(&bytes[8 - width..]);
    }

    // Numbers of one width, one after another.
    pub fn numbers(&mut self, width: usize, values: &[u64])
        requires room { self.old.at + width * length values.now ≤ length self.old.out.now }
        ensures { Wrote self.old (bytes_of_each width values.now) self.new }
    {
        for v in values {
            self.number(width, *v);
        }
    }
}
