// Bits of words, and sets of numbers as words.

ghost use Rattle.std.specs.Prelude.{◌≡◌, ◌≢◌, ℕ, ◌<◌, ◌/◌, length};
ghost use Rattle.std.specs.Prelude.{slice_index};
ghost use Rattle.std.specs.Int.{bit_at};
ghost use Rattle.strc_balance.specs.NumberSets.{IsWith, IsWithout};

/// The place of the lowest bit of a word.
pub(crate) fn lowest_bit(word: u64) -> usize
    requires { 0 < word }
    ensures within { result < 64 }
    ensures there { bit_at word result ≡ 1 }
    ensures lowest { (lower : ℕ) → lower < result → bit_at word lower ≡ 0 }
{
    word.trailing_zeros() as usize
}

/// The place of its highest bit.
pub(crate) fn highest_bit(word: u64) -> usize
    requires { 0 < word }
    ensures within { result < 64 }
    ensures there { bit_at word result ≡ 1 }
    ensures highest { (higher : ℕ) → result < higher → bit_at word higher ≡ 0 }
{
    63 - word.leading_zeros() as usize
}

/// Adds a number to a set that has a word for it.
pub(crate) fn set_bit(words: &mut Vec<u64>, number: usize)
    requires { number / 64 < length words.old.items }
    ensures numbers { IsWith number words.old.items words.new.items }
    ensures others { (word : ℕ) → word ≢ number / 64
        → slice_index words.new.items word ≡ slice_index words.old.items word }
    ensures each { length words.new.items ≡ length words.old.items }
{
    words[number / 64] |= 1 << (number % 64);
}

/// Takes a number out of a set that has a word for it.
pub(crate) fn clear_bit(words: &mut Vec<u64>, number: usize)
    requires { number / 64 < length words.old.items }
    ensures numbers { IsWithout number words.old.items words.new.items }
    ensures others { (word : ℕ) → word ≢ number / 64
        → slice_index words.new.items word ≡ slice_index words.old.items word }
    ensures each { length words.new.items ≡ length words.old.items }
{
    words[number / 64] &= !(1 << (number % 64));
}
