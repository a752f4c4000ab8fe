// A number as its decimal digits. By hand, since the edits `ten_is_a_digit` and `digits_from_one` change these lines.
use crate::Page;

impl Page<'_> {
    ghost use Rattle.page.specs.Page.{Holds, Adds};
    ghost use Rattle.page.specs.Numbers.{decimal};

    #[tactic(auto, using(crate::proofs::Decimal::laws))]
    pub fn put_number(&mut self, n: u64)
        requires { Holds self.old (decimal n) }
        ensures { Adds self.old self.new (decimal n) }
    {
        if n >= 10 {
            self.put_number(n / 10);
        }
        self.put(&[b'0' + (n % 10) as u8]);
    }
}
