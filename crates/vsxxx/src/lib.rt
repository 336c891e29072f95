// The reports of the Digital VSXXX: movement, as the wire has it in S, and the self-test. This crate has no function: what it gives the others are
// the self-test, the definitions of specs/ and the laws of proofs/.
#![tactic(auto)]

// What a self-test report says: the firmware's revision, the maker's location, the device's code, the error, 0 for none, and the buttons, as 4L+2M+R.
#[repr(C)]
#[derive(Clone, Copy, Debug, PartialEq, Eq, Drop)]
pub struct SelfTest {
    pub revision: u8,
    pub maker: u8,
    pub device: u8,
    pub error: u8,
    pub buttons: u8,
}
