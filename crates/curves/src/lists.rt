// A number looked up in a list.
ghost use Rattle.std.specs.Prelude.{◌≡◌};
ghost use Rattle.rules.specs.Choice.{member};

// Whether x is one of the list. (Each curve's `has_width` is this of its own list, which it holds to the rules.)
pub fn is_one_of(list: &[u8], x: u8) -> bool
    ensures { result ≡ member x list.now }
{
    list.contains(&x)
}
