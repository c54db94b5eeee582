// Walks through the wheel integrator by the records of standard input, and writes what becomes of each and the state after it, in bits. The crate `cases` says
// what a record and a line are. tools/wheel_cases.py makes the input and the expected output, but for the Rust's answers at their end, which are
// oracle/run --sample's. A record is its kind and:
//
//    1  a group of cases begins: its number
//    2  begin a walk: a drive (left and right radius, track, ticks per turn, counter width), the noise of a wheel's rate, the lateral noise; 3 a drive, with
//       the noise that is set beforehand
//    4  integrate ticks: whether it is valid (1), the time, left and right; 5 rates
//    6  restart
//    7  hand in a state, fit or not: a drive and a noise as in 2, the motion's three numbers and the nine of its covariance, dt, and the last reading, as in 4
//       or 5 behind that number, or 0 for none
//    8  the twist of two rates
//    9  the rates of two differences of ticks over a time
//   10  the Jacobian
//   11  the stored motion composed with another: three numbers and the nine of a covariance
//   12  change the drive and the noise: as in 2
//   13  a run: the bytes of eight events, and eight bytes more, which are no event
//
// A line of 2 to 6 and of 12 has what became of the call (0, or the refusal's number and the times that it carries) and the state as in 7; one of 7 has the
// state; one of 13 has how many readings were accepted and the state; one of 8 to 11 has what became of the call and the answer, and beside a refused
// composition the motion that is blank by contract.
//
// A kind 100 higher is the same, with motions and twists held against the Rust's: place, heading and covariance, and the forward speed and the yaw rate, each
// stand behind a tolerance. A kind 200 higher is the same, with the kept values in a state, behind its noise: the nine numbers of the rate noise and the
// radians per tick. The Rust keeps none, so that otherwise none stand there, and those of a state that is handed in are worked out.
#![tactic(auto)]

ghost use Rattle.std.specs.Prelude.{◌≡◌};
ghost use Rattle.planar.specs.Compose.{told_composed};
ghost use Rattle.wheel.specs.Answers.{told_made};

use drive::{BodyTwist, DifferentialDrive, Reading, Refusal, WheelMeasurement, WheelNoise};
use interval::Accumulated;
use kept::KeptValues;
use number::Numbered;
use planar::PlanarMotion;
use std::io;
use wheel::{Settings, WheelPreintegration};

fn main(rt: HostRuntime) -> io::Result<()> {
    let mut state = WheelPreintegration::BLANK;
    for kind in cases::kinds(&rt) {
        cases::print_word(&rt, kind)?;
        call(&rt, kind, &mut state)?;
        print_after(&rt, kind, state)?;
        cases::end_line(&rt)?;
    }
    Ok(())
}

// ---- the calls that change the state

// The kind is matched as the number that the input has: an enum of the kinds would be the list above a second time.
fn call(rt: &(impl Input + Print), kind: u64, state: &mut WheelPreintegration) -> io::Result<()> {
    match kind % 100 {
        2 => {
            let drive = read_drive(rt);
            begin(rt, drive, read_noise(rt), state)
        }
        3 => begin(rt, read_drive(rt), WheelNoise::DEFAULT, state),
        4 | 5 => print_outcome(rt, state.integrate(read_measurement(rt, kind % 100))),
        6 => {
            state.restart();
            cases::print_word(rt, 0)
        }
        7 => {
            *state = read_state(rt, kind);
            Ok(())
        }
        12 => {
            let drive = read_drive(rt);
            print_outcome(rt, state.change(drive, read_noise(rt)))
        }
        13 => run(rt, state),
        _ => Ok(()),
    }
}

fn begin(
    rt: &impl Print,
    drive: DifferentialDrive,
    noise: WheelNoise,
    state: &mut WheelPreintegration,
) -> io::Result<()> {
    let made = WheelPreintegration::new(drive, noise);
    *state = state_of(made);
    print_outcome(rt, made.map(|_| ()))
}

fn run(rt: &(impl Input + Print), state: &mut WheelPreintegration) -> io::Result<()> {
    let mut events = [0u8; 520];
    cases::read_bytes(rt, &mut events);
    let ran = runs::run(*state, &events);
    *state = ran.state;
    cases::print_word(rt, ran.accepted as u64)
}

// ---- what a line has behind it: the state, or what is asked and leaves it

// The kind is matched as the number that the input has: an enum of the kinds would be the list above a second time.
fn print_after(rt: &(impl Input + Print), kind: u64, state: WheelPreintegration) -> io::Result<()> {
    match kind % 100 {
        0 | 1 | 8..=11 => ask(rt, kind, state.settings.drive, state.motion()),
        _ => print_state(rt, kind, state),
    }
}

// The kind is matched as the number that the input has: an enum of the kinds would be the list above a second time.
fn ask(
    rt: &(impl Input + Print),
    kind: u64,
    drive: DifferentialDrive,
    stored: PlanarMotion,
) -> io::Result<()> {
    match kind % 100 {
        8 => ask_twist(rt, kind, drive),
        9 => ask_rates(rt, drive),
        10 => ask_jacobian(rt, drive),
        11 => ask_composed(rt, kind, stored),
        _ => cases::print_word(rt, cases::read_word(rt)),
    }
}

fn ask_twist(rt: &(impl Input + Print), kind: u64, drive: DifferentialDrive) -> io::Result<()> {
    let left = cases::read_f64(rt);
    let right = cases::read_f64(rt);
    let answer = drive.twist(left, right);
    print_outcome(rt, answer.map(|_| ()))?;
    if let Ok(v) = answer {
        cases::print_near(rt, kind, &[v.vx])?;
        cases::print_numbers(rt, &[v.vy])?;
        cases::print_near(rt, kind, &[v.wz])?;
    }
    Ok(())
}

fn ask_rates(rt: &(impl Input + Print), drive: DifferentialDrive) -> io::Result<()> {
    let left = cases::read_tick(rt);
    let right = cases::read_tick(rt);
    let answer = drive.wheel_rates_from_ticks(left, right, cases::read_f64(rt));
    print_outcome(rt, answer.map(|_| ()))?;
    if let Ok(w) = answer {
        cases::print_numbers(rt, &[w.left, w.right])?;
    }
    Ok(())
}

fn ask_jacobian(rt: &(impl Input + Print), drive: DifferentialDrive) -> io::Result<()> {
    let answer = drive.twist_jacobian();
    print_outcome(rt, answer.map(|_| ()))?;
    if let Ok(c) = answer {
        print_twist(rt, c.left)?;
        print_twist(rt, c.right)?;
    }
    Ok(())
}

// The stored motion, then the record's; beside a refusal stands no motion.
fn ask_composed(rt: &(impl Input + Print), kind: u64, stored: PlanarMotion) -> io::Result<()> {
    let composed = stored.compose(read_motion(rt));
    cases::print_outcome(rt, &composed)?;
    let motion = motion_of(composed);
    cases::print_motion(rt, kind, &motion.delta, &motion.covariance)
}

// ---- the value of an answer: beside a refusal the blank one that the definition has there

fn state_of(made: Result<WheelPreintegration, Refusal>) -> WheelPreintegration
    ensures { result ≡ (told_made made).value }
{
    made.unwrap_or(WheelPreintegration::BLANK)
}

fn motion_of(composed: Result<PlanarMotion, sincos::Refusal>) -> PlanarMotion
    ensures { result ≡ (told_composed composed).value }
{
    composed.unwrap_or(PlanarMotion::IDENTITY)
}

// ---- what a record holds behind its kind

fn read_drive(rt: &impl Input) -> DifferentialDrive {
    let left_radius = cases::read_f64(rt);
    let right_radius = cases::read_f64(rt);
    let track_width = cases::read_f64(rt);
    let ticks_per_revolution = cases::read_f64(rt);
    let counter_width = cases::read_word(rt);
    DifferentialDrive {
        left_radius,
        right_radius,
        track_width,
        ticks_per_revolution,
        counter_width,
    }
}

fn read_noise(rt: &impl Input) -> WheelNoise {
    let wheel_rate = cases::read_f64(rt);
    let lateral_velocity = cases::read_f64(rt);
    WheelNoise {
        wheel_rate,
        lateral_velocity,
    }
}

fn read_motion(rt: &impl Input) -> PlanarMotion {
    let delta = cases::read_array(rt);
    let covariance = cases::read_array(rt);
    PlanarMotion { delta, covariance }
}

fn read_state(rt: &impl Input, kind: u64) -> WheelPreintegration {
    let drive = read_drive(rt);
    let noise = read_noise(rt);
    let kept = read_kept(rt, kind, drive, noise);
    let motion = read_motion(rt);
    let dt = cases::read_f64(rt);
    let last = read_last(rt, cases::read_word(rt));
    WheelPreintegration {
        settings: Settings { drive, noise },
        kept,
        accumulated: Accumulated { motion, dt },
        last,
    }
}

fn read_kept(
    rt: &impl Input,
    kind: u64,
    drive: DifferentialDrive,
    noise: WheelNoise,
) -> KeptValues {
    if kind < 200 {
        return kept::kept_of(drive, noise);
    }
    let rate_noise = cases::read_array(rt);
    let radians_per_tick = cases::read_f64(rt);
    KeptValues {
        rate_noise,
        radians_per_tick,
    }
}

// The number in front of a reading: 4 of ticks, 5 of rates, 0 for none, as the list above has them.
fn read_last(rt: &impl Input, call: u64) -> Option<WheelMeasurement> {
    if call == 0 {
        return None;
    }
    Some(read_measurement(rt, call))
}

fn read_measurement(rt: &impl Input, call: u64) -> WheelMeasurement {
    let valid = cases::read_word(rt) == 1;
    let timestamp = cases::read_f64(rt);
    let reading = read_reading(rt, call);
    WheelMeasurement {
        timestamp,
        reading,
        valid,
    }
}

fn read_reading(rt: &impl Input, call: u64) -> Reading {
    if call == 4 {
        let left = cases::read_tick(rt);
        return Reading::Ticks(left, cases::read_tick(rt));
    }
    let left = cases::read_f64(rt);
    Reading::AngularVelocity(left, cases::read_f64(rt))
}

// ---- what a line holds

// Not cases::print_outcome: the wheel's refusals carry times.
fn print_outcome(rt: &impl Print, outcome: Result<(), Refusal>) -> io::Result<()> {
    match outcome {
        Ok(()) => cases::print_word(rt, 0),
        Err(why) => print_refusal(rt, why),
    }
}

fn print_refusal(rt: &impl Print, why: Refusal) -> io::Result<()> {
    cases::print_word(rt, why.number())?;
    match why {
        Refusal::OutOfOrder(time, last) => cases::print_numbers(rt, &[time, last]),
        Refusal::Duplicate(time) => cases::print_numbers(rt, &[time]),
        _ => Ok(()),
    }
}

fn print_state(rt: &(impl Input + Print), kind: u64, state: WheelPreintegration) -> io::Result<()> {
    print_settings(rt, state.settings)?;
    print_kept(rt, kind, state.kept)?;
    let motion = state.motion();
    cases::print_motion(rt, kind % 200, &motion.delta, &motion.covariance)?;
    cases::print_numbers(rt, &[state.dt()])?;
    print_last(rt, state.last)
}

fn print_settings(rt: &impl Print, settings: Settings) -> io::Result<()> {
    let d = settings.drive;
    let n = settings.noise;
    cases::print_numbers(
        rt,
        &[
            d.left_radius,
            d.right_radius,
            d.track_width,
            d.ticks_per_revolution,
        ],
    )?;
    cases::print_word(rt, d.counter_width)?;
    cases::print_numbers(rt, &[n.wheel_rate, n.lateral_velocity])
}

fn print_kept(rt: &impl Print, kind: u64, kept: KeptValues) -> io::Result<()> {
    if 200 <= kind {
        cases::print_numbers(rt, &kept.rate_noise)?;
        cases::print_numbers(rt, &[kept.radians_per_tick])?;
    }
    Ok(())
}

fn print_last(rt: &impl Print, last: Option<WheelMeasurement>) -> io::Result<()> {
    match last {
        None => cases::print_word(rt, 0),
        Some(m) => print_measurement(rt, m),
    }
}

fn print_measurement(rt: &impl Print, m: WheelMeasurement) -> io::Result<()> {
    match m.reading {
        Reading::Ticks(left, right) => {
            print_stamp(rt, 4, m)?;
            cases::print_word(rt, number::tick::bits_of(left))?;
            cases::print_word(rt, number::tick::bits_of(right))
        }
        Reading::AngularVelocity(left, right) => {
            print_stamp(rt, 5, m)?;
            cases::print_numbers(rt, &[left, right])
        }
    }
}

fn print_stamp(rt: &impl Print, kind: u64, m: WheelMeasurement) -> io::Result<()> {
    cases::print_word(rt, kind)?;
    cases::print_word(rt, m.valid as u64)?;
    cases::print_numbers(rt, &[m.timestamp])
}

fn print_twist(rt: &impl Print, v: BodyTwist) -> io::Result<()> {
    cases::print_numbers(rt, &[v.vx, v.vy, v.wz])
}
