//! The settings of a recovery.
ghost use Rattle.std.specs.Prelude.{◌≡◌};
ghost use Rattle.recovery_stack.specs.Settings.{default_settings, settings_fault};
ghost use Rattle.recovery_engine.specs.declared.numbers.TheConstants.{NEW_MADE};

use recovery_stack::settings::Settings;

/// Returns the default settings: an address that is not validated, a max_ack_delay of 25 ms, and one issued
/// connection ID of 8 bytes with a lifetime of 10 s. No skips, an RTT of 333 ms, MTUs from 1200 to 1452 bytes, and
/// NewReno with a window of 12,000 bytes and a factor of a half. For senders, thresholds of 3 packets, 9/8 of an
/// RTT and 3 probe timeouts.
#[unsafe(no_mangle)]
pub extern "C" fn recovery_ffi_default_settings() -> Settings
    ensures defaults { result ≡ default_settings }
    ensures sound { settings_fault result ≡ NEW_MADE }
{
    Settings::default()
}
