//! The roles that domains have, and the programs of each.
ghost use Rattle.std.specs.Prelude.{◌↔◌, IsTrue};
ghost use Rattle.sdf_plan.specs.ClassTable.Roles.{IsProgramOf};

/// What a domain is in its class.
#[derive(Clone, Copy, Debug)]
pub enum Role {
    NetDriver,
    NetRxVirt,
    NetTxVirt,
    NetCopier,
    NetClient,
    SerialDriver,
    SerialRxVirt,
    SerialTxVirt,
    SerialClient,
    BlkDriver,
    BlkVirt,
    BlkClient,
}

/// Whether a program is one of this role.
pub fn is_program_of(role: Role, program: &str) -> bool
    ensures { IsTrue result ↔ IsProgramOf role program.now }
{
    match role {
        Role::NetDriver => program == "eth_driver",
        Role::NetRxVirt => program == "net_virt_rx",
        Role::NetTxVirt => program == "net_virt_tx",
        Role::NetCopier => program == "net_copier",
        Role::NetClient => program == "net_sink"
            || program == "net_source"
            || program == "net_echo"
            || program == "net_rogue",
        Role::SerialDriver => program == "uart_driver",
        Role::SerialRxVirt => program == "serial_virt_rx",
        Role::SerialTxVirt => program == "serial_virt_tx",
        Role::SerialClient => program == "serial_reader"
            || program == "serial_speaker"
            || program == "serial_rogue",
        Role::BlkDriver => program == "blk_driver",
        Role::BlkVirt => program == "blk_virt",
        Role::BlkClient => program == "blk_script" || program == "blk_rogue",
    }
}
