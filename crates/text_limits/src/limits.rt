//! What holds of whatever was read.
ghost use Rattle.std.specs.Prelude.{◌≡◌, ◌≤◌, ℕ, Some, List, All, length, slice_get};
ghost use Rattle.i2c_text.specs.declared.bus.Bus.{Bus};
ghost use Rattle.i2c_text.specs.Buses.{IsReadBus};
ghost use Rattle.line_text.specs.declared.ports_text.ports.Ports.{Ports};
ghost use Rattle.line_text.specs.PortsText.Given.{ArePorts};
ghost use Rattle.text_limits.specs.Limits.{KeepsBusLimits, KeepsPortLimits};

/// A bus that was read has 1 to 8 clients, a list of requests for each of them, and at most 1,024
/// requests.
pub fn bus_limits_law()
    ensures { (bus : Bus) → IsReadBus bus → KeepsBusLimits bus }
{}

/// A switch that was read has 2 to 8 ports, a list of frames for each of them, and at most 1,024
/// frames.
pub fn ports_limits_law()
    ensures { (ports : Ports) → ArePorts ports → KeepsPortLimits ports }
{}

/// Each frame of a switch that was read has at most 1,514 bytes.
pub fn ports_frames_law()
    ensures { (ports : Ports) → ArePorts ports → (port : ℕ) (frames : List (List ℕ))
        → slice_get ports.sends port ≡ Some frames
        → All (λ frame. length frame ≤ 1514) frames }
{}
