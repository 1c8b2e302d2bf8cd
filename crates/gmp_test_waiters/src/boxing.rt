//! Bodies of threads are boxes. Macros make and run them, since a function that makes boxes of any type, or runs them, can't hand them out.

/// The bodies, each in a box.
macro_rules! boxed {
    ($alloc:expr, $bodies:expr) => {{
        let mut boxes: Vec<gmp_worker::Boxed> = Vec::new($alloc);
        for body in $bodies {
            boxes.push(Box::new($alloc, body)?)?;
        }
        boxes
    }};
}

/// The run of the row's script in threads, by these settings, under this gate.
macro_rules! ran {
    ($rt:expr, $alloc:expr, $row:expr, $settings:expr, $gate:expr) => {{
        let script = crate::script::script_of($alloc, $row)?;
        let bodies = crate::boxing::boxed!($alloc, script.bodies);
        let (capacities, limits, random) =
            (script.capacities, $settings.limits(), $settings.random);
        let ran = gmp_run::run_fair(
            $rt,
            $alloc,
            0,
            limits,
            &capacities,
            bodies,
            &crate::waiting::Stopped,
            $gate,
            random,
            $settings.fair,
        );
        let Ok(report) = ran else {
            return Err(crate::wrong::Wrong::NotBegun);
        };
        crate::script::Ran { capacities, report }
    }};
}

pub(crate) use boxed;
pub(crate) use ran;
