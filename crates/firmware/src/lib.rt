// What the firmware of one server, or of one client, links: the functions of crate `device` on numbers and slices. Nothing is
// trusted: a list of the wrong length, and one with a number that codes nothing, is refused with 2. A refusal leaves every list
// as it was, and gives outcome 0. A refusal is its number here, 0 for none, since C has no `Result`.
#![tactic(auto)]

ghost use Rattle.std.specs.Prelude.{◌≡◌, Result, cond, length, OnOk};
ghost use Rattle.types.specs.declared.Refusal.{Refusal};
ghost use Rattle.types.specs.declared.Refusal.TheVariants.{OutOfRange};
ghost use Rattle.types.specs.declared.Reaction.{Reaction};
ghost use Rattle.flat.specs.Blocks.{codes};
ghost use Rattle.flat.specs.Flat.{config_in, message_in, codes_message};
ghost use Rattle.device.specs.Device.{Reply, reply_of};
ghost use Rattle.firmware.specs.Firmware.{leaves, result_left, party_left, are_lists, receive_message_left, take_notice_left, come_back_left, clean_up_left, receive_reply_left, discover_left, request_left, renew_left, pass_time_left};

use arith::{check, refusal_of};
use device::Device;
use flat::{Coded, Cursor, Flat};
use types::{Config, Message, Outbox, Reaction, Refusal};

// The device of that number and clock reading, of which lists code the configuration and the party, a server or a client, with
// room for what is sent. Refusal 2 where they do not fit.
#[tactic(auto, using(rules::proofs::Laws::tests, flat::proofs::Blocks::coded_length), unfolding(crate::specs::Firmware::are_lists))]
fn read_device<T: Coded>(
    config: &[u32],
    number: u32,
    reading: u32,
    party: &[u32],
    sent: &[u32],
) -> Result<Device<T>, Refusal>
    ensures fits { result ≡ cond (are_lists (codes T.numbers T.value T.WIDTH) config.now party.now sent.now) (Ok (record { config = config_in config.now 0; number = number; reading = reading; value = T.value party.now 0 })) (Err OutOfRange) }
    ensures ok { OnOk result ((length party.now ≡ T.WIDTH) × (length sent.now ≡ 29)) }
{
    check(config.len() == Config::width(), Refusal::OutOfRange)?;
    check(sent.len() == Outbox::width(), Refusal::OutOfRange)?;
    check(T::is_coded_by(party), Refusal::OutOfRange)?;
    Ok(Device {
        config: Config::read(Cursor::new(config)),
        number,
        reading,
        value: T::read(Cursor::new(party)),
    })
}

// What a device replies, put where it is not refused, and else outcome 0.
#[tactic(auto, using(flat::proofs::Laws::over_whole))]
fn put_reply<T: Coded>(
    x: Result<Reaction<T>, Refusal>,
    party: &mut [u32],
    sent: &mut [u32],
    outcome: &mut u32,
) -> u32
    requires { OnOk x ((length party.old ≡ T.WIDTH) × (length sent.old ≡ 29)) }
    ensures { leaves result party.new sent.new outcome.new ≡ result_left T.numbers x party.old sent.old }
{
    let refusal = refusal_of(&x);
    match x {
        Ok(x) => {
            x.after.put(party);
            x.outbox.put(sent);
            *outcome = u32::from(x.outcome);
        }
        Err(_) => *outcome = 0,
    }
    refusal
}

// The device's step, on lists, which stand one by one as C hands them. It is handed what they code, and its reply is put. Where
// every answer that it may give is the reply z, they are left as z leaves them.
#[tactic(auto, using(device::proofs::Laws::not_none), unfolding(crate::specs::Firmware::party_left))]
fn replied<T: Coded, F: FnOnce(Device<T>) -> Result<Reaction<T>, Refusal>>(
    config: &[u32],
    number: u32,
    reading: u32,
    party: &mut [u32],
    sent: &mut [u32],
    outcome: &mut u32,
    step: F,
) -> u32
    requires { F.IsAlwaysCallable step }
    ensures { (z : Reply T) → ((y : Result (Reaction T) Refusal) → F.post step (record { config = config_in config.now 0; number = number; reading = reading; value = T.value party.old 0 }) y → reply_of (T.value party.old 0) y ≡ z) → leaves result party.new sent.new outcome.new ≡ party_left T.numbers (are_lists (codes T.numbers T.value T.WIDTH) config.now party.old sent.old) z party.old sent.old }
{
    let x = read_device(config, number, reading, party, sent).and_then(step);
    put_reply(x, party, sent, outcome)
}

// The message that a list codes: refusal 2 where it codes none.
#[tactic(auto, using(flat::proofs::Blocks::coded_length))]
fn message_of(l: &[u32]) -> Result<Message, Refusal>
    ensures { result ≡ cond (codes_message l.now) (Ok (message_in l.now 0)) (Err OutOfRange) }
{
    check(Message::is_coded_by(l), Refusal::OutOfRange)?;
    Ok(Message::read(Cursor::new(l)))
}

// A message comes to the server.
#[tactic(auto, unfolding(crate::specs::Firmware::receive_message_left))]
#[unsafe(no_mangle)]
pub extern "C" fn hoyllaqe_receive_message(
    config: &[u32],
    number: u32,
    reading: u32,
    server: &mut [u32],
    message: &[u32],
    sent: &mut [u32],
    outcome: &mut u32,
) -> u32
    ensures { leaves result server.new sent.new outcome.new ≡ receive_message_left config.now number reading server.old message.now sent.old }
{
    replied(config, number, reading, server, sent, outcome, |d| {
        device::device_receives(d, message_of(message)?)
    })
}

// A notice: server `about` is dead (0) or alive (1).
#[tactic(auto, unfolding(crate::specs::Firmware::take_notice_left))]
#[unsafe(no_mangle)]
pub extern "C" fn hoyllaqe_take_notice(
    config: &[u32],
    number: u32,
    reading: u32,
    server: &mut [u32],
    about: u32,
    says: u32,
    sent: &mut [u32],
    outcome: &mut u32,
) -> u32
    ensures { leaves result server.new sent.new outcome.new ≡ take_notice_left config.now number reading server.old about says sent.old }
{
    replied(config, number, reading, server, sent, outcome, |d| {
        device::device_noticed(d, about, says)
    })
}

// The server comes back after a failure.
#[tactic(auto, unfolding(crate::specs::Firmware::come_back_left))]
#[unsafe(no_mangle)]
pub extern "C" fn hoyllaqe_come_back(
    config: &[u32],
    number: u32,
    reading: u32,
    server: &mut [u32],
    sent: &mut [u32],
    outcome: &mut u32,
) -> u32
    ensures { leaves result server.new sent.new outcome.new ≡ come_back_left config.now number reading server.old sent.old }
{
    replied(config, number, reading, server, sent, outcome, |d| {
        device::device_returned(d)
    })
}

// Old reservations are dropped.
#[tactic(auto, unfolding(crate::specs::Firmware::clean_up_left))]
#[unsafe(no_mangle)]
pub extern "C" fn hoyllaqe_clean_up(
    config: &[u32],
    number: u32,
    reading: u32,
    server: &mut [u32],
    sent: &mut [u32],
    outcome: &mut u32,
) -> u32
    ensures { leaves result server.new sent.new outcome.new ≡ clean_up_left config.now number reading server.old sent.old }
{
    replied(config, number, reading, server, sent, outcome, |d| {
        device::device_cleaned(d)
    })
}

// A message comes to the client.
#[tactic(auto, unfolding(crate::specs::Firmware::receive_reply_left))]
#[unsafe(no_mangle)]
pub extern "C" fn hoyllaqe_receive_reply(
    config: &[u32],
    number: u32,
    reading: u32,
    client: &mut [u32],
    message: &[u32],
    sent: &mut [u32],
    outcome: &mut u32,
) -> u32
    ensures { leaves result client.new sent.new outcome.new ≡ receive_reply_left config.now number reading client.old message.now sent.old }
{
    replied(config, number, reading, client, sent, outcome, |d| {
        device::device_hears(d, message_of(message)?)
    })
}

// A discover with a new interaction.
#[tactic(auto, unfolding(crate::specs::Firmware::discover_left))]
#[unsafe(no_mangle)]
pub extern "C" fn hoyllaqe_discover(
    config: &[u32],
    number: u32,
    reading: u32,
    client: &mut [u32],
    interaction: u32,
    sent: &mut [u32],
    outcome: &mut u32,
) -> u32
    ensures { leaves result client.new sent.new outcome.new ≡ discover_left config.now number reading client.old interaction sent.old }
{
    replied(config, number, reading, client, sent, outcome, |d| {
        device::device_discovers(d, interaction)
    })
}

// A request with the wanted end.
#[tactic(auto, unfolding(crate::specs::Firmware::request_left))]
#[unsafe(no_mangle)]
pub extern "C" fn hoyllaqe_request(
    config: &[u32],
    number: u32,
    reading: u32,
    client: &mut [u32],
    wanted: u32,
    sent: &mut [u32],
    outcome: &mut u32,
) -> u32
    ensures { leaves result client.new sent.new outcome.new ≡ request_left config.now number reading client.old wanted sent.old }
{
    replied(config, number, reading, client, sent, outcome, |d| {
        device::device_requests(d, wanted)
    })
}

// A renewal with the wanted end and a new interaction.
#[tactic(auto, unfolding(crate::specs::Firmware::renew_left))]
#[unsafe(no_mangle)]
pub extern "C" fn hoyllaqe_renew(
    config: &[u32],
    number: u32,
    reading: u32,
    client: &mut [u32],
    wanted: u32,
    interaction: u32,
    sent: &mut [u32],
    outcome: &mut u32,
) -> u32
    ensures { leaves result client.new sent.new outcome.new ≡ renew_left config.now number reading client.old wanted interaction sent.old }
{
    replied(config, number, reading, client, sent, outcome, |d| {
        device::device_renews(d, wanted, interaction)
    })
}

// Time passes: a hold whose end is not above the clock is over.
#[tactic(auto, unfolding(crate::specs::Firmware::pass_time_left))]
#[unsafe(no_mangle)]
pub extern "C" fn hoyllaqe_pass_time(
    config: &[u32],
    number: u32,
    reading: u32,
    client: &mut [u32],
    sent: &mut [u32],
    outcome: &mut u32,
) -> u32
    ensures { leaves result client.new sent.new outcome.new ≡ pass_time_left config.now number reading client.old sent.old }
{
    replied(config, number, reading, client, sent, outcome, |d| {
        device::device_lapses(d)
    })
}
