// The scripts of `script` for hosts in C and Rust, by the names of c/drift_script.h: each export calls the function of its name.
#![tactic(auto)]

ghost use Rattle.std.specs.Prelude.{◌≡◌};
ghost use Rattle.state.specs.States.{held_in};
ghost use Rattle.script.specs.Run.{bytes_printed, output_after, air_left};
ghost use Rattle.script.specs.State.{state_told, state_held, state_air};

// Runs a script: the number of bytes printed, or 0 where the output has not 131,072 bytes and all stays as it was. An air
// of another length than 65,536 bytes is what the steps meet (13).
#[unsafe(no_mangle)]
pub extern "C" fn drift_run_script(script: &[u8], air: &mut [u8], output: &mut [u8]) -> usize
    ensures value { result ≡ bytes_printed script.now air.old output.old }
    ensures printed { output.new ≡ output_after script.now air.old output.old }
    ensures bytes { air.new ≡ air_left script.now air.old output.old }
{
    script::drift_run_script(script, air, output)
}

// Runs a script and leaves its yard in the state: the answer of its last line as one number. A state that has not 4,483
// cells, or a script that is refused by 1 to 5, is told, and all stays as it was.
#[unsafe(no_mangle)]
pub extern "C" fn drift_script_state(script: &[u8], air: &mut [u8], state: &mut [u16]) -> u64
    ensures value { result ≡ state_told script.now air.old state.old }
    ensures held { held_in state.new ≡ state_held script.now air.old state.old }
    ensures bytes { air.new ≡ state_air script.now air.old state.old }
{
    script::drift_script_state(script, air, state)
}
