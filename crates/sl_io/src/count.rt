ghost use Rattle.std.specs.Prelude.{◌≡◌, ◌<◌, ◌⊎◌, ◌^◌, ◌-◌};
ghost use Rattle.sl_io.specs.Count.{next_count, Rose};

// A count after one more, which stays at its last value.
pub(crate) fn raised(count: u64) -> u64
    ensures next { result ≡ next_count count }
    ensures rose { Rose count result }
    ensures either { (count < result) ⊎ (result ≡ 2 ^ 64 - 1) }
{
    count.saturating_add(1)
}
