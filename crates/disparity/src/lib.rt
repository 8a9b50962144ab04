// Disparity is -1 or +1, a signed number. It stays an i32, the customer's form: an unbalanced block negates it.
#![tactic(auto)]

ghost use Rattle.std.specs.Prelude.{◌≡◌};
ghost use Rattle.character_rules.specs.Disparity.{is_plus, is_minus, is_disparity, disparity_of};

pub fn is_plus(d: i32) -> bool
    ensures { result ≡ is_plus d }
{
    d == 1
}

pub fn is_minus(d: i32) -> bool
    ensures { result ≡ is_minus d }
{
    d == -1
}

pub fn is_disparity(d: i32) -> bool
    ensures { result ≡ is_disparity d }
{
    is_plus(d) || is_minus(d)
}

pub fn disparity_of(plus: bool) -> i32
    ensures { result ≡ disparity_of plus }
{
    if plus { 1 } else { -1 }
}
