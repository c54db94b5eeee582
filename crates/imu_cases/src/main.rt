// Walks through the inertial accumulation by the records of standard input, and writes what becomes of each, in bits, the blank beside a refusal too. The crate
// `cases` says what a record and a line are. tools/imu_cases.py makes the input and the expected output, but for the Rust's answers at their end, which are
// oracle/run --sample's. A matrix goes column by column. A record is its kind and:
//
//    1  a group of cases begins: its number
//    2  make: biases (gyroscope 3, accelerometer 3), densities (gyroscope, accelerometer, walk of the gyroscope's bias, of the accelerometer's)
//    3  step: time, gyroscope 3, accelerometer 3; dt
//    4  widen: seconds
//    5  batch: n and w, at most 28,679 each, and w numbers. The samples are n numbers: these, and then 0
//    6  window: biases 6, densities 4; t0, t1; the places of the order buffer, at most 4,200; then the samples, as in 5. Before the call place i
//       holds 1000 + i
//    7  hand in a state: rotation 9, velocity 3, position 3, dt; biases 6 and densities 4; the covariance, 81; the covariance of the biases, 36; the Jacobians,
//       9 each: rotation by gyroscope, velocity by gyroscope and by accelerometer, position by both
//    8  the rotation at other biases, 6; 9 the velocity; 10 the position
//   11  predict: rotation 9, velocity 3, position 3, gravity 3
//   12  show the whole state
//
// A line of 2 to 6 has what became of the call (0, or the refusal's number), of 5 the index and of 6 every place of the buffer, and then the motion, the first
// sixteen numbers of 7; 8 to 11 have what became of the call and the answer; 12 has the state as in 7. A kind 100 higher is the same, with the numbers held
// against the Rust's: every matrix and every three numbers stand behind a tolerance, but for the biases.
#![tactic(auto)]

ghost use Rattle.std.specs.Prelude.{◌≡◌, ◌≤◌, length, take};
ghost use Rattle.imu.specs.State.{told_made};
ghost use Rattle.imu_window.specs.Batch.{index_of};
ghost use Rattle.imu_correction.specs.Correction.{told_predicted, told_rotation, told_vector};

use imu::PreintegratedImu;
use imu_correction::Motion;
use imu_window::BatchRefusal;
use inertial::{ImuBias, ImuCalib, ImuMeasurement};
use number::Numbered;
use std::io;

// Before the first making stands the blank state that is printed beside a refused one.
fn main(rt: HostRuntime) -> io::Result<()> {
    let mut state = PreintegratedImu::BLANK;
    for kind in cases::kinds(&rt) {
        cases::print_word(&rt, kind)?;
        after_record(&rt, kind, &mut state)?;
        cases::end_line(&rt)?;
    }
    Ok(())
}

// The kind is matched as the number that the input has: an enum of the kinds would be the list above a second time. Out of line, and so are
// making, the batch, the window and what is asked: their room stands on the stack only while a record is answered that needs it.
#[inline(never)]
fn after_record(
    rt: &(impl Input + Print),
    kind: u64,
    state: &mut PreintegratedImu,
) -> io::Result<()> {
    match kind % 100 {
        2 => make(rt, state)?,
        3 => step(rt, state)?,
        4 => widen(rt, state)?,
        5 => integrate_batch(rt, state)?,
        6 => integrate_window(rt, state)?,
        7 => {
            *state = read_state(rt);
            return Ok(());
        }
        _ => return ask(rt, kind, *state),
    }
    print_motion(rt, kind, *state)
}

// ---- the calls that give a state

#[inline(never)]
fn make(rt: &(impl Input + Print), state: &mut PreintegratedImu) -> io::Result<()> {
    let bias = read_bias(rt);
    let answer = PreintegratedImu::new(bias, cases::read_calib(rt));
    cases::print_outcome(rt, &answer)?;
    *state = state_of(answer);
    Ok(())
}

fn step(rt: &(impl Input + Print), state: &mut PreintegratedImu) -> io::Result<()> {
    let m = read_measurement(rt);
    cases::print_outcome(rt, &state.integrate(m, cases::read_f64(rt)))
}

fn widen(rt: &(impl Input + Print), state: &mut PreintegratedImu) -> io::Result<()> {
    cases::print_outcome(rt, &state.widen_bias_walk(cases::read_f64(rt)))
}

#[inline(never)]
fn integrate_batch(rt: &(impl Input + Print), state: &mut PreintegratedImu) -> io::Result<()> {
    let mut samples = [0.0; 28679];
    let n = read_samples(rt, &mut samples);
    let answer = imu_window::integrate_batch(state, &samples[..n]);
    cases::print_outcome(rt, &answer)?;
    cases::print_word(rt, index_of(answer) as u64)
}

#[inline(never)]
fn integrate_window(rt: &(impl Input + Print), state: &mut PreintegratedImu) -> io::Result<()> {
    let bias = read_bias(rt);
    let calib = cases::read_calib(rt);
    let t0 = cases::read_f64(rt);
    let t1 = cases::read_f64(rt);
    let mut order = [0usize; 4200];
    let places = read_places(rt, &mut order);
    let mut samples = [0.0; 28679];
    let n = read_samples(rt, &mut samples);
    let order = &mut order[..places];
    match imu_window::from_measurements(bias, calib, &samples[..n], t0, t1, order) {
        Ok(after) => {
            *state = after;
            cases::print_word(rt, 0)?;
        }
        Err(refused) => {
            *state = refused.state;
            cases::print_word(rt, refused.why.number())?;
        }
    }
    print_places(rt, order)
}

// ---- what is asked, and leaves the state

// The kind is matched as the number that the input has: an enum of the kinds would be the list above a second time.
#[inline(never)]
fn ask(rt: &(impl Input + Print), kind: u64, state: PreintegratedImu) -> io::Result<()> {
    match kind % 100 {
        8 => {
            let answer = imu_correction::delta_rotation_with_bias(state, read_bias(rt));
            print_answer(rt, kind, answer, rotation_of(answer))
        }
        9 => {
            let answer = imu_correction::delta_velocity_with_bias(state, read_bias(rt));
            print_answer(rt, kind, answer, vector_of(answer))
        }
        10 => {
            let answer = imu_correction::delta_position_with_bias(state, read_bias(rt));
            print_answer(rt, kind, answer, vector_of(answer))
        }
        11 => ask_prediction(rt, kind, state),
        12 => print_state(rt, kind, state),
        _ => cases::print_word(rt, cases::read_word(rt)),
    }
}

// What became of the call, and the value of its answer.
fn print_answer<const N: usize, E: Numbered + Copy>(
    rt: &(impl Input + Print),
    kind: u64,
    answer: Result<[f64; N], E>,
    value: [f64; N],
) -> io::Result<()> {
    cases::print_outcome(rt, &answer)?;
    cases::print_near(rt, kind, &value)
}

fn ask_prediction(rt: &(impl Input + Print), kind: u64, state: PreintegratedImu) -> io::Result<()> {
    let r = cases::read_array(rt);
    let v = cases::read_array(rt);
    let p = cases::read_array(rt);
    let answer = imu_correction::predict(state, r, v, p, cases::read_array(rt));
    cases::print_outcome(rt, &answer)?;
    let next = motion_of(answer);
    cases::print_near(rt, kind, &next.rotation)?;
    cases::print_near(rt, kind, &next.velocity)?;
    cases::print_near(rt, kind, &next.position)
}

// ---- the value of an answer: beside a refusal the blank one that the definition has there

fn state_of(made: Result<PreintegratedImu, imu::Refusal>) -> PreintegratedImu
    ensures { result ≡ (told_made made).value }
{
    made.unwrap_or(PreintegratedImu::BLANK)
}

// The index of the sample whose step is refused, else 0.
fn index_of(answer: Result<(), BatchRefusal>) -> usize
    ensures { result ≡ index_of answer }
{
    match answer {
        Err(BatchRefusal::Step { index, .. }) => index,
        _ => 0,
    }
}

fn rotation_of(corrected: Result<[f64; 9], sincos::Refusal>) -> [f64; 9]
    ensures { result ≡ (told_rotation corrected).value }
{
    corrected.unwrap_or([0.0; 9])
}

fn vector_of(corrected: Result<[f64; 3], number::Refusal>) -> [f64; 3]
    ensures { result ≡ (told_vector corrected).value }
{
    corrected.unwrap_or([0.0; 3])
}

fn motion_of(predicted: Result<Motion, number::Refusal>) -> Motion
    ensures { result ≡ (told_predicted predicted).value }
{
    predicted.unwrap_or(Motion::BLANK)
}

// ---- what a record holds

fn read_bias(rt: &impl Input) -> ImuBias {
    let gyro = cases::read_array(rt);
    let accel = cases::read_array(rt);
    ImuBias { gyro, accel }
}

fn read_measurement(rt: &impl Input) -> ImuMeasurement {
    let timestamp = cases::read_f64(rt);
    let gyro = cases::read_array(rt);
    let accel = cases::read_array(rt);
    ImuMeasurement {
        timestamp,
        gyro,
        accel,
    }
}

fn read_state(rt: &impl Input) -> PreintegratedImu {
    let delta_rotation = cases::read_array(rt);
    let delta_velocity = cases::read_array(rt);
    let delta_position = cases::read_array(rt);
    let dt = cases::read_f64(rt);
    let bias = read_bias(rt);
    let calib = cases::read_calib(rt);
    let covariance = cases::read_array(rt);
    let bias_covariance = cases::read_array(rt);
    PreintegratedImu {
        delta_rotation,
        delta_velocity,
        delta_position,
        dt,
        bias,
        calib,
        covariance,
        bias_covariance,
        d_rotation_d_bias_gyro: cases::read_array(rt),
        d_velocity_d_bias_gyro: cases::read_array(rt),
        d_velocity_d_bias_accel: cases::read_array(rt),
        d_position_d_bias_gyro: cases::read_array(rt),
        d_position_d_bias_accel: cases::read_array(rt),
    }
}

fn read_at_most(rt: &impl Input, most: usize) -> usize
    ensures { result ≤ most }
{
    (cases::read_word(rt) as usize).min(most)
}

// How many numbers the samples are. The buffer holds zeros before, and the first of them after. It is of a fixed size, since no program here uses the heap.
fn read_samples(rt: &impl Input, samples: &mut [f64]) -> usize
    ensures upper_bound { result ≤ length samples.new }
    ensures value { result ≡ length (take result samples.new) }
{
    let n = read_at_most(rt, samples.len());
    let w = read_at_most(rt, samples.len());
    cases::read_numbers(rt, &mut samples[..w]);
    n
}

// How many places the order buffer has, which is of a fixed size as well. Each is numbered, so that one that nothing is written to shows.
fn read_places(rt: &impl Input, order: &mut [usize]) -> usize
    ensures upper_bound { result ≤ length order.new }
    ensures value { result ≡ length (take result order.new) }
{
    for (i, place) in order.iter_mut().enumerate() {
        *place = 1000 + i;
    }
    read_at_most(rt, order.len())
}

// ---- what a line holds

// Every place of the order buffer.
fn print_places(rt: &impl Print, order: &[usize]) -> io::Result<()> {
    for place in order {
        cases::print_word(rt, *place as u64)?;
    }
    Ok(())
}

fn print_motion(rt: &(impl Input + Print), kind: u64, state: PreintegratedImu) -> io::Result<()> {
    cases::print_near(rt, kind, &state.delta_rotation)?;
    cases::print_near(rt, kind, &state.delta_velocity)?;
    cases::print_near(rt, kind, &state.delta_position)?;
    cases::print_numbers(rt, &[state.dt])
}

fn print_state(rt: &(impl Input + Print), kind: u64, state: PreintegratedImu) -> io::Result<()> {
    print_motion(rt, kind, state)?;
    print_parameters(rt, state.bias, state.calib)?;
    cases::print_near(rt, kind, &state.covariance)?;
    cases::print_near(rt, kind, &state.bias_covariance)?;
    print_jacobians(rt, kind, state)
}

fn print_parameters(rt: &impl Print, bias: ImuBias, calib: ImuCalib) -> io::Result<()> {
    cases::print_numbers(rt, &bias.gyro)?;
    cases::print_numbers(rt, &bias.accel)?;
    cases::print_calib(rt, calib)
}

fn print_jacobians(
    rt: &(impl Input + Print),
    kind: u64,
    state: PreintegratedImu,
) -> io::Result<()> {
    cases::print_near(rt, kind, &state.d_rotation_d_bias_gyro)?;
    cases::print_near(rt, kind, &state.d_velocity_d_bias_gyro)?;
    cases::print_near(rt, kind, &state.d_velocity_d_bias_accel)?;
    cases::print_near(rt, kind, &state.d_position_d_bias_gyro)?;
    cases::print_near(rt, kind, &state.d_position_d_bias_accel)
}
