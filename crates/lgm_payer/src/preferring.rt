//! What a payer prefers unless it is told.

ghost use Rattle.std.specs.Prelude.{◌≡◌};
ghost use Rattle.lgm_payer.specs.Preferring.{failure_for, usual_preferences};

use lgm_route::Preferences;

/// What it is worth that a try doesn't fail, in msat: 200 millionths of the whole payment's amount, but a hundredth of
/// it up to 20 satoshis.
fn failure_for(amount: u64) -> u32
    ensures { result ≡ failure_for amount }
{
    let share = u128::from(amount) * 200 / 1_000_000;
    let least = u128::from((amount / 100).min(20_000));
    share.max(least).min(0xffff_ffff) as u32
}

/// What a payer prefers for a payment of an amount, in msat: a try that doesn't fail for 200 millionths of the amount,
/// but for a hundredth of it up to 20 satoshis; and a hop less for half a satoshi.
pub fn usual_preferences(amount: u64) -> Preferences
    ensures { result ≡ usual_preferences amount }
{
    Preferences {
        failure_msat: failure_for(amount),
        hop_msat: 500,
    }
}
