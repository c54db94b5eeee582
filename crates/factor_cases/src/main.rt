// Asks the wheel and still factors by the records of standard input, and writes what each answers, in bits, a blank beside a refusal too. The crate `cases`
// says what a record and a line are. tools/factor_cases.py makes the input and the expected output, but for the Rust's answers at their end, which are
// oracle/run --sample's. A record is its kind and:
//
//    1  a group of cases begins: its number
//    2  every way to make a wheel measurement, and its planar part: delta 3, covariance 9, sigmas 2
//    3  the information of one; 4 two of them composed
//    5  a wheel factor: from, to, a measurement, two extrinsics (rotation 9, translation 3), a limit (whether there is one, 1, and which); 6 whether it is
//       valid; 7 two composed
//    8  a still factor as it is made, and with a gyro mean: from, to, span, densities 4, mean 3, seconds covered
//    9  the information of one: from, to, span, whether there is a mean (1), mean 3, seconds covered, densities 4, sigmas 3, a limit; 10 two composed
//   11  two limits joined
//
// A line has what became of the call where it can be refused (0, or the refusal's number), and what it answers, laid out as it goes in; where there is no limit
// or no mean, 0 alone. A line of 6 has 1 for valid; 9 has that before the call, and behind it the pose's 36 numbers, those of velocity and of both biases, and
// whether there is a row for the gyro (1), its mean, and its information; 10 has nothing beside a refusal; 11 has whether the limit is valid behind it. A
// kind 100 higher is the same, with what 01 holds within a tolerance held against the Rust's: of a measurement place, heading, covariance and each
// sigma stand behind a tolerance, and so does the matrix of 3.
#![tactic(auto)]

ghost use Rattle.std.specs.Prelude.{◌≡◌};
ghost use Rattle.stationary_information.specs.Information.{told_informed as told_still};
ghost use Rattle.wheel_factor.specs.Factor.{told_factor};
ghost use Rattle.wheel_odom.specs.Information.{told_informed};
ghost use Rattle.wheel_odom.specs.Measurement.{told_measurement};

use number::Numbered;
use planar::PlanarMotion;
use stationary::{StationaryFactor, StationaryGyro};
use stationary_information::StationaryInfo;
use std::io;
use wheel_factor::{Extrinsic, WheelOdomFactor};
use wheel_odom::WheelOdomMeasurement;

fn main(rt: HostRuntime) -> io::Result<()> {
    for kind in cases::kinds(&rt) {
        cases::print_word(&rt, kind)?;
        ask(&rt, kind)?;
        cases::end_line(&rt)?;
    }
    Ok(())
}

// The kind is matched as the number that the input has: an enum of the kinds would be the list above a second time.
fn ask(rt: &(impl Input + Print), kind: u64) -> io::Result<()> {
    match kind % 100 {
        2 => ask_measurements(rt),
        3 => ask_information(rt, kind),
        4 => ask_composed(rt, kind),
        5 => print_factor(rt, kind, read_factor(rt)),
        6 => ask_factor_valid(rt),
        7 => ask_factors_composed(rt, kind),
        8 => ask_still_factor(rt),
        9 => ask_still_information(rt),
        10 => ask_still_composed(rt),
        11 => ask_limits_joined(rt),
        _ => cases::print_word(rt, cases::read_word(rt)),
    }
}

// ---- wheel measurements and factors

// The kind of what no record asks to be held against others.
const PLAIN: u64 = 2;

fn ask_measurements(rt: &(impl Input + Print)) -> io::Result<()> {
    let full = read_measurement(rt);
    let plain = WheelOdomMeasurement::new(full.delta, full.covariance);
    let motion = full.planar_motion();
    print_measurement(rt, PLAIN, plain)?;
    print_measurement(
        rt,
        PLAIN,
        plain.with_out_of_plane_sigmas(full.z_sigma, full.tilt_sigma),
    )?;
    print_measurement(rt, PLAIN, WheelOdomMeasurement::from(motion))?;
    cases::print_motion(rt, PLAIN, &motion.delta, &motion.covariance)
}

fn ask_information(rt: &(impl Input + Print), kind: u64) -> io::Result<()> {
    let informed = read_measurement(rt).information();
    cases::print_outcome(rt, &informed)?;
    cases::print_near(rt, kind, &matrix_of(informed))
}

fn ask_composed(rt: &(impl Input + Print), kind: u64) -> io::Result<()> {
    let first = read_measurement(rt);
    let composed = first.compose(read_measurement(rt));
    cases::print_outcome(rt, &composed)?;
    print_measurement(rt, kind, measurement_of(composed))
}

fn ask_factor_valid(rt: &(impl Input + Print)) -> io::Result<()> {
    let f = read_factor(rt);
    cases::print_word(rt, f.is_valid() as u64)
}

fn ask_factors_composed(rt: &(impl Input + Print), kind: u64) -> io::Result<()> {
    let first = read_factor(rt);
    let composed = first.compose(read_factor(rt));
    cases::print_outcome(rt, &composed)?;
    print_factor(rt, kind, factor_of(composed))
}

// ---- still factors, and limits

fn ask_still_factor(rt: &(impl Input + Print)) -> io::Result<()> {
    let from_idx = cases::read_word(rt) as usize;
    let to_idx = cases::read_word(rt) as usize;
    let span_s = cases::read_f64(rt);
    let calib = cases::read_calib(rt);
    let gyro = read_gyro(rt);
    let f = StationaryFactor::new(from_idx, to_idx, span_s, calib);
    print_still(rt, f)?;
    print_still(rt, f.with_gyro(gyro))
}

fn ask_still_information(rt: &(impl Input + Print)) -> io::Result<()> {
    let f = read_still(rt);
    let informed = stationary_information::information(f);
    cases::print_word(rt, f.is_valid() as u64)?;
    cases::print_outcome(rt, &informed)?;
    print_info(rt, info_of(informed))
}

fn ask_still_composed(rt: &(impl Input + Print)) -> io::Result<()> {
    let first = read_still(rt);
    let composed = first.compose(read_still(rt));
    cases::print_outcome(rt, &composed)?;
    if let Ok(f) = composed {
        print_still(rt, f)?;
    }
    Ok(())
}

fn ask_limits_joined(rt: &(impl Input + Print)) -> io::Result<()> {
    let first = read_limit(rt);
    let joined = robust::joined(first, read_limit(rt));
    print_limit(rt, joined)?;
    cases::print_word(rt, robust::is_valid(joined) as u64)
}

// ---- the value of an answer: beside a refusal the blank one that the definition has there

fn matrix_of(informed: Result<[f64; 36], wheel_odom::Refusal>) -> [f64; 36]
    ensures { result ≡ (told_informed informed).value }
{
    informed.unwrap_or([0.0; 36])
}

fn measurement_of(composed: Result<WheelOdomMeasurement, sincos::Refusal>) -> WheelOdomMeasurement
    ensures { result ≡ (told_measurement composed).value }
{
    composed.unwrap_or(WheelOdomMeasurement::BLANK)
}

fn factor_of(composed: Result<WheelOdomFactor, wheel_factor::Refusal>) -> WheelOdomFactor
    ensures { result ≡ (told_factor composed).value }
{
    composed.unwrap_or(WheelOdomFactor::BLANK)
}

fn info_of(informed: Result<StationaryInfo, stationary_information::Refusal>) -> StationaryInfo
    ensures { result ≡ (told_still informed).value }
{
    informed.unwrap_or(StationaryInfo::BLANK)
}

// ---- what a record holds

fn read_measurement(rt: &impl Input) -> WheelOdomMeasurement {
    let delta = cases::read_array(rt);
    let covariance = cases::read_array(rt);
    let z_sigma = cases::read_f64(rt);
    let tilt_sigma = cases::read_f64(rt);
    WheelOdomMeasurement {
        delta,
        covariance,
        z_sigma,
        tilt_sigma,
    }
}

fn read_extrinsic(rt: &impl Input) -> Extrinsic {
    let rotation = cases::read_array(rt);
    let translation = cases::read_array(rt);
    Extrinsic {
        rotation,
        translation,
    }
}

fn read_factor(rt: &impl Input) -> WheelOdomFactor {
    let from_idx = cases::read_word(rt) as usize;
    let to_idx = cases::read_word(rt) as usize;
    let measurement = read_measurement(rt);
    let t_cb_from = read_extrinsic(rt);
    let t_cb_to = read_extrinsic(rt);
    let huber_chi2 = read_limit(rt);
    WheelOdomFactor::new(
        from_idx,
        to_idx,
        measurement,
        t_cb_from,
        t_cb_to,
        huber_chi2,
    )
}

// read_mean is its like: of two with four lines each, one function of both would take a closure.
fn read_limit(rt: &impl Input) -> Option<f64> {
    let is_there = cases::read_word(rt) == 1;
    let limit = cases::read_f64(rt);
    is_there.then_some(limit)
}

fn read_gyro(rt: &impl Input) -> StationaryGyro {
    let x = cases::read_f64(rt);
    let y = cases::read_f64(rt);
    let z = cases::read_f64(rt);
    StationaryGyro::new(x, y, z, cases::read_f64(rt))
}

fn read_mean(rt: &impl Input) -> Option<StationaryGyro> {
    let is_there = cases::read_word(rt) == 1;
    let gyro = read_gyro(rt);
    is_there.then_some(gyro)
}

fn read_still(rt: &impl Input) -> StationaryFactor {
    let from_idx = cases::read_word(rt) as usize;
    let to_idx = cases::read_word(rt) as usize;
    let span_s = cases::read_f64(rt);
    let gyro = read_mean(rt);
    let calib = cases::read_calib(rt);
    let translation_sigma_m = cases::read_f64(rt);
    let rotation_sigma_rad = cases::read_f64(rt);
    let velocity_sigma_m_s = cases::read_f64(rt);
    let huber_chi2 = read_limit(rt);
    StationaryFactor {
        from_idx,
        to_idx,
        span_s,
        gyro,
        calib,
        translation_sigma_m,
        rotation_sigma_rad,
        velocity_sigma_m_s,
        huber_chi2,
    }
}

// ---- what a line holds

fn print_measurement(
    rt: &(impl Input + Print),
    kind: u64,
    m: WheelOdomMeasurement,
) -> io::Result<()> {
    cases::print_motion(rt, kind, &m.delta, &m.covariance)?;
    cases::print_near(rt, kind, &[m.z_sigma])?;
    cases::print_near(rt, kind, &[m.tilt_sigma])
}

fn print_factor(rt: &(impl Input + Print), kind: u64, f: WheelOdomFactor) -> io::Result<()> {
    cases::print_word(rt, f.from_idx as u64)?;
    cases::print_word(rt, f.to_idx as u64)?;
    print_measurement(rt, kind, f.measurement)?;
    print_extrinsic(rt, f.t_cb_from)?;
    print_extrinsic(rt, f.t_cb_to)?;
    print_limit(rt, f.huber_chi2)
}

fn print_extrinsic(rt: &impl Print, t: Extrinsic) -> io::Result<()> {
    cases::print_numbers(rt, &t.rotation)?;
    cases::print_numbers(rt, &t.translation)
}

fn print_limit(rt: &impl Print, limit: Option<f64>) -> io::Result<()> {
    match limit {
        None => cases::print_word(rt, 0),
        Some(k) => {
            cases::print_word(rt, 1)?;
            cases::print_numbers(rt, &[k])
        }
    }
}

fn print_still(rt: &impl Print, f: StationaryFactor) -> io::Result<()> {
    cases::print_word(rt, f.from_idx as u64)?;
    cases::print_word(rt, f.to_idx as u64)?;
    cases::print_numbers(rt, &[f.span_s])?;
    match f.gyro {
        None => cases::print_word(rt, 0)?,
        Some(g) => print_gyro(rt, g)?,
    }
    cases::print_calib(rt, f.calib)?;
    cases::print_numbers(
        rt,
        &[
            f.translation_sigma_m,
            f.rotation_sigma_rad,
            f.velocity_sigma_m_s,
        ],
    )?;
    print_limit(rt, f.huber_chi2)
}

fn print_gyro(rt: &impl Print, g: StationaryGyro) -> io::Result<()> {
    cases::print_word(rt, 1)?;
    cases::print_numbers(rt, &[g.x, g.y, g.z, g.covered_s])
}

fn print_info(rt: &impl Print, info: StationaryInfo) -> io::Result<()> {
    cases::print_numbers(rt, &info.pose)?;
    cases::print_numbers(rt, &[info.velocity, info.gyro_bias, info.accel_bias])?;
    match info.gyro_mean {
        None => cases::print_word(rt, 0),
        Some(row) => {
            print_gyro(rt, row.mean)?;
            cases::print_numbers(rt, &[row.information])
        }
    }
}
