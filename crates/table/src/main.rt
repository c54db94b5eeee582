// 01's table of examples, run: each answer of the code in bits or digits. That the definitions give the same is proved (proofs/Table.antt).
#![tactic(auto)]

use drive::DifferentialDrive;
use number::Numbered;
use std::io;
use wheel_odom::WheelOdomMeasurement;

fn main(rt: HostRuntime) -> io::Result<()> {
    rt.print("2^53+1 converts to ")?;
    print_f64(&rt, number::whole_to_f64(9007199254740993))?;
    rt.print("2^63-1 converts to ")?;
    print_f64(&rt, number::whole_to_f64(9223372036854775807))?;
    rt.print("the root of 2^-1074 is ")?;
    print_root(&rt, words::of_bits(1))?;
    rt.print("from 2^63-1 to -2^63 it is ")?;
    print_f64(
        &rt,
        number::whole_to_f64(number::tick_difference(
            64,
            9223372036854775807,
            number::tick::of_bits(0x8000_0000_0000_0000),
        )),
    )?;
    print_halvings(&rt, 1.0)?;
    print_halvings(&rt, 1024.0)?;
    print_halvings(&rt, words::of_bits(0x4090_0000_0000_0001))?;
    print_twist(&rt)?;
    print_information(&rt)
}

fn print_root(rt: &impl Print, x: f64) -> io::Result<()> {
    match root::sqrt(x) {
        Ok(r) => print_f64(rt, r),
        Err(refusal) => print_refusal(rt, "refused ", refusal.number()),
    }
}

// A refusal's number, behind some words. Out of line, so that the room in which a line is put together stands on the stack only where something is refused.
#[inline(never)]
fn print_refusal(rt: &impl Print, before: &str, number: u64) -> io::Result<()> {
    println!(rt; "{before}{number}")
}

fn print_halvings(rt: &impl Print, ratio: f64) -> io::Result<()> {
    let halved = number::halvings(ratio);
    let bits = words::to_bits(ratio);
    let count = halved.count;
    println!(rt; "a ratio of {bits:016x} gives {count}")
}

fn print_twist(rt: &impl Print) -> io::Result<()> {
    let drive = DifferentialDrive {
        left_radius: 0.5,
        right_radius: 0.5,
        track_width: 0.25,
        ticks_per_revolution: 1.0,
        counter_width: 64,
    };
    match drive.twist(1.0, 2.0) {
        Ok(v) => {
            rt.print("vx ")?;
            print_f64(rt, v.vx)?;
            rt.print("wz ")?;
            print_f64(rt, v.wz)
        }
        Err(_) => rt.println("refused"),
    }
}

fn print_information(rt: &impl Print) -> io::Result<()> {
    let covariance = mat3::diagonal(-1.0, -1.0, 1.0);
    let m = WheelOdomMeasurement::new([0.0, 0.0, 0.0], covariance);
    rt.print("diag(-1,-1,1) gives ")?;
    match m.information() {
        Ok(_) => rt.println("a matrix"),
        Err(refusal) => print_refusal(rt, "", refusal.number()),
    }
}

fn print_f64(rt: &impl Print, x: f64) -> io::Result<()> {
    let bits = words::to_bits(x);
    println!(rt; "{bits:016x}")
}
