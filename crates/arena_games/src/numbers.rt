ghost use Rattle.std.specs.Prelude.{◌≡◌, ◌≤◌, ◌+◌, ◌-◌, ◌++◌, length, vec_len, vec_capacity};
ghost use Rattle.std.specs.List.{range_with_len};
ghost use Rattle.arena_games.specs.Numbers.{IsParted, IsPartedBy};

/// How many of the numbers, which rise, are below this one: the place of the first that is not.
pub fn place_of(numbers: &[u32], number: u32) -> usize
    requires { IsParted numbers.now number }
    ensures place { (parted : IsParted numbers.now number) → result ≡ length parted.below }
    ensures within { result ≤ length numbers.now }
{
    numbers.partition_point(|n| *n < number)
}

/// Takes a number out of the numbers, which rise, and in which it stands.
pub fn take_out(numbers: &mut Vec<u32>, number: u32)
    requires { IsPartedBy numbers.old.items number }
    ensures items { (parted : IsPartedBy numbers.old.items number) → numbers.new.items ≡ parted.below ++ parted.above }
    ensures len { vec_len numbers.new + 1 ≡ vec_len numbers.old }
    ensures room { vec_capacity numbers.new ≡ vec_capacity numbers.old }
{
    let place = place_of(numbers.as_slice(), number);
    numbers.remove(place);
}

/// Puts the numbers from `first` up to `end` behind the others, for which there is room.
pub fn put_range(numbers: &mut Vec<u32>, first: u32, end: u32)
    requires range { first ≤ end }
    requires room { vec_len numbers.old + (end - first) ≤ vec_capacity numbers.old }
    ensures items { numbers.new.items ≡ numbers.old.items ++ range_with_len first (end - first) }
    ensures len { vec_len numbers.new ≡ vec_len numbers.old + (end - first) }
    ensures room { vec_capacity numbers.new ≡ vec_capacity numbers.old }
{
    'putting: for number in first..end {
        numbers.push_reserved(number);
    }
}
