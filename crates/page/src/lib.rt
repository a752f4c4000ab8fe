// Writing on a page: bytes that the caller lends, and how far they are written. What each method asks is that the page has room for what it writes.
#![tactic(auto)]

ghost use Rattle.std.specs.Prelude.{length, ◌≤◌};

mod number;

// Not `Clone`: it holds the bytes to be changed.
#[derive(Drop)]
pub struct Page<'a> {
    pub bytes: &'a mut [u8],
    pub len: usize,
    pub ghost within: { len ≤ length bytes.now },
}

impl Page<'_> {
    ghost use Rattle.page.specs.Page.{Holds, Adds};
    ghost use Rattle.page.specs.Numbers.{field, fields, numbers_line};

    #[tactic(auto, unfolding(crate::specs::Page::onto))]
    pub fn put(&mut self, more: &[u8])
        requires { Holds self.old more.now }
        ensures { Adds self.old self.new more.now }
    {
        let end = self.len + more.len();
        self.bytes[self.len..end].copy_from_slice(more);
        self.len = end;
    }

    // A field for each number: a tab, and its digits.
    #[tactic(auto, using(crate::proofs::Written::laws))]
    pub fn put_fields(&mut self, numbers: &[u64])
        requires { Holds self.old (fields numbers.now) }
        ensures { Adds self.old self.new (fields numbers.now) }
    {
        for &n in numbers {
            self.put_field(n);
        }
    }

    #[tactic(auto, using(crate::proofs::Written::laws), unfolding(crate::specs::Numbers::field))]
    fn put_field(&mut self, n: u64)
        requires { Holds self.old (field n) }
        ensures { Adds self.old self.new (field n) }
    {
        self.put(b"\t");
        self.put_number(n);
    }

    // A line: the word, the fields, and a line feed.
    #[tactic(auto, using(crate::proofs::Written::laws), unfolding(crate::specs::Numbers::numbers_line))]
    pub fn put_numbers(&mut self, word: &[u8], numbers: &[u64])
        requires { Holds self.old (numbers_line word.now numbers.now) }
        ensures { Adds self.old self.new (numbers_line word.now numbers.now) }
    {
        self.put(word);
        self.put_fields(numbers);
        self.put(b"\n");
    }
}
