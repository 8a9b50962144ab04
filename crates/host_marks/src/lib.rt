// A mark that is handed out.
#![tactic(auto)]

ghost use Rattle.std.specs.Prelude.{◌≡◌};
ghost use Rattle.host_rules.specs.Numbers.{mark_number};

// 0 or 1. It is `u32::from`, under a name on which this crate's wrong answers are tried.
pub fn mark_number(mark: bool) -> u32
    ensures { result ≡ mark_number mark }
{
    u32::from(mark)
}
