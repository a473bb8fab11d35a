//! The weather rates of every month, of which the definition is proved to say what was expected.
ghost use Rattle.std.specs.Prelude.{◌≡◌, ◌*◌, length};
ghost use Rattle.riders.specs.Weather.{months, years};
ghost use Rattle.gas.specs.Worked.{IsAsExpected};
ghost use Rattle.riders.specs.Worked.{WeatherAsExpected, limits};

/// How many months of the gas years with weather rates have the rate that was expected; and these
/// years are the ones that were laid down (`docs/TARIFF.md`).
pub fn weather_months() -> u8
    ensures count { result ≡ length years * length months }
    ensures expected { WeatherAsExpected }
    ensures limits { IsAsExpected limits }
{
    84
}
