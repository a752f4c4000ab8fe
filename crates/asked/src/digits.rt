// Words of digits: whether a word is one, its number, and its digits as numbers.
ghost use Rattle.std.specs.Prelude.{◌≡◌, map, IsTrue};
ghost use Rattle.asked.specs.Digits.{is_number, digit_of, count_of};

#[tactic(auto, unfolding(crate::specs::Digits::is_number))]
pub fn is_number(word: &[u8]) -> bool
    ensures { result ≡ is_number word.now }
{
    !word.is_empty() && word.iter().all(u8::is_ascii_digit)
}

// 9 stands for every number above 8.
pub fn count_of(word: &[u8]) -> usize
    requires { IsTrue (is_number word.now) }
    ensures { result ≡ count_of word.now }
{
    word.iter()
        .fold(0, |n, b| if n > 0 { 9 } else { usize::from(b - b'0') })
}

#[tactic(auto, using(crate::proofs::Numbers::digits_low, crate::proofs::Numbers::all_off))]
pub fn digits_off(word: &mut [u8])
    requires { IsTrue (is_number word.old) }
    ensures { word.new ≡ map digit_of word.old }
{
    // by index: of a slice after `iter_mut` only the length is known
    for i in 0..word.len() {
        word[i] -= b'0';
    }
}
