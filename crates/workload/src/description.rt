//! The description that the generated traces are for.

/// The full example, `examples/full.toml`: each class with two clients. A network client sends the
/// frames of its script and the other answers, a serial client speaks and the other reads, and each
/// block client has a partition.
pub const FULL_EXAMPLE: &str = r#"memory_region = [
 {name="net_rx", size=0x100000, phys_addr=0x10000000},
 {name="net_rxq", size=0x5000}, {name="net_txq", size=0x9000},
 {name="lease0", size=0x5000}, {name="lease1", size=0x5000},
 {name="rx0", size=0x100000}, {name="rx1", size=0x100000},
 {name="rxq0", size=0x5000}, {name="rxq1", size=0x5000},
 {name="tx0", size=0x100000}, {name="tx1", size=0x100000},
 {name="txq0", size=0x5000}, {name="txq1", size=0x5000},
 {name="s_rx", size=0x1000}, {name="s_tx", size=0x1000},
 {name="s_rx0", size=0x1000}, {name="s_tx0", size=0x1000},
 {name="s_rx1", size=0x1000}, {name="s_tx1", size=0x1000},
 {name="b_q", size=0x1000}, {name="b_mbr", size=0x8000},
 {name="b_q0", size=0x1000}, {name="b_q1", size=0x1000},
 {name="b_d0", size=0x20000}, {name="b_d1", size=0x20000},
]
protection_domain = [
 {name="eth", priority=101, budget=100, period=400, program="eth_driver", irq=[{irq=79, id=0, trigger="edge"}], map=[
  {mr="net_rxq", vaddr=0x2000000, perms="rw"}, {mr="net_txq", vaddr=0x2200000, perms="rw"}]},
 {name="net_rx", priority=99, program="net_virt_rx", map=[
  {mr="net_rxq", vaddr=0x2000000, perms="rw"}, {mr="net_rx", vaddr=0x2200000, perms="r"},
  {mr="lease0", vaddr=0x2400000, perms="rw"}, {mr="lease1", vaddr=0x2600000, perms="rw"}]},
 {name="net_tx", priority=100, program="net_virt_tx", map=[
  {mr="net_txq", vaddr=0x2000000, perms="rw"},
  {mr="txq0", vaddr=0x2200000, perms="rw"}, {mr="txq1", vaddr=0x2400000, perms="rw"}]},
 {name="copy0", priority=98, program="net_copier", map=[
  {mr="lease0", vaddr=0x2000000, perms="rw"}, {mr="net_rx", vaddr=0x2200000, perms="r"},
  {mr="rxq0", vaddr=0x2400000, perms="rw"}, {mr="rx0", vaddr=0x2600000, perms="rw"}]},
 {name="copy1", priority=98, program="net_copier", map=[
  {mr="lease1", vaddr=0x2000000, perms="rw"}, {mr="net_rx", vaddr=0x2200000, perms="r"},
  {mr="rxq1", vaddr=0x2400000, perms="rw"}, {mr="rx1", vaddr=0x2600000, perms="rw"}]},
 {name="app0", priority=90, program="net_source", map=[
  {mr="rxq0", vaddr=0x2000000, perms="rw"}, {mr="rx0", vaddr=0x2200000, perms="rw"},
  {mr="txq0", vaddr=0x2400000, perms="rw"}, {mr="tx0", vaddr=0x2600000, perms="rw"}]},
 {name="app1", priority=90, program="net_echo", map=[
  {mr="rxq1", vaddr=0x2000000, perms="rw"}, {mr="rx1", vaddr=0x2200000, perms="rw"},
  {mr="txq1", vaddr=0x2400000, perms="rw"}, {mr="tx1", vaddr=0x2600000, perms="rw"}]},
 {name="uart", priority=100, program="uart_driver", irq=[{irq=33, id=0}], map=[
  {mr="s_rx", vaddr=0x2000000, perms="rw"}, {mr="s_tx", vaddr=0x2200000, perms="rw"}]},
 {name="ser_rx", priority=99, program="serial_virt_rx", map=[{mr="s_rx", vaddr=0x2000000, perms="rw"},
  {mr="s_rx0", vaddr=0x2200000, perms="rw"}, {mr="s_rx1", vaddr=0x2400000, perms="rw"}]},
 {name="ser_tx", priority=99, program="serial_virt_tx", map=[{mr="s_tx", vaddr=0x2000000, perms="rw"},
  {mr="s_tx0", vaddr=0x2200000, perms="rw"}, {mr="s_tx1", vaddr=0x2400000, perms="rw"}]},
 {name="term0", priority=1, program="serial_speaker", map=[
  {mr="s_rx0", vaddr=0x2000000, perms="rw"}, {mr="s_tx0", vaddr=0x2200000, perms="rw"}]},
 {name="term1", priority=1, program="serial_reader", map=[
  {mr="s_rx1", vaddr=0x2000000, perms="rw"}, {mr="s_tx1", vaddr=0x2200000, perms="rw"}]},
 {name="disk", priority=100, program="blk_driver", irq=[{irq=48, id=0}], map=[
  {mr="b_q", vaddr=0x2000000, perms="rw"}]},
 {name="blkv", priority=99, program="blk_virt", map=[
  {mr="b_q", vaddr=0x2000000, perms="rw"}, {mr="b_mbr", vaddr=0x2200000, perms="rw"},
  {mr="b_q0", vaddr=0x2400000, perms="rw"}, {mr="b_q1", vaddr=0x2600000, perms="rw"}]},
 {name="fs0", priority=1, program="blk_script", map=[
  {mr="b_q0", vaddr=0x2000000, perms="rw"}, {mr="b_d0", vaddr=0x2200000, perms="rw"}]},
 {name="fs1", priority=1, program="blk_script", map=[
  {mr="b_q1", vaddr=0x2000000, perms="rw"}, {mr="b_d1", vaddr=0x2200000, perms="rw"}]},
]
channel = [
 {end=[{pd="eth", id=1}, {pd="net_rx", id=0}]}, {end=[{pd="eth", id=2}, {pd="net_tx", id=0}]},
 {end=[{pd="net_rx", id=1}, {pd="copy0", id=0}]}, {end=[{pd="net_rx", id=2}, {pd="copy1", id=0}]},
 {end=[{pd="copy0", id=1}, {pd="app0", id=0}]}, {end=[{pd="copy1", id=1}, {pd="app1", id=0}]},
 {end=[{pd="net_tx", id=1}, {pd="app0", id=1}]}, {end=[{pd="net_tx", id=2}, {pd="app1", id=1}]},
 {end=[{pd="uart", id=1}, {pd="ser_rx", id=0}]}, {end=[{pd="uart", id=2}, {pd="ser_tx", id=0}]},
 {end=[{pd="ser_rx", id=1}, {pd="term0", id=0}]}, {end=[{pd="ser_rx", id=2}, {pd="term1", id=0}]},
 {end=[{pd="ser_tx", id=1}, {pd="term0", id=1}]}, {end=[{pd="ser_tx", id=2}, {pd="term1", id=1}]},
 {end=[{pd="disk", id=1}, {pd="blkv", id=0}]},
 {end=[{pd="blkv", id=1}, {pd="fs0", id=0}]}, {end=[{pd="blkv", id=2}, {pd="fs1", id=0}]},
]
[net]
driver = "eth"
rx_virt = "net_rx"
tx_virt = "net_tx"
rx_region = "net_rx"
rx_buffers = 512
rx_capacity = 512
rx_queues = "net_rxq"
tx_capacity = 1024
tx_queues = "net_txq"
client = [
 {pd="app0", copier="copy0", mac="02:00:00:00:00:01", lease_queues="lease0", rx_region="rx0", rx_buffers=512, rx_capacity=512, rx_queues="rxq0", tx_region="tx0", tx_buffers=512, tx_capacity=512, tx_queues="txq0"},
 {pd="app1", copier="copy1", mac="02:00:00:00:00:02", lease_queues="lease1", rx_region="rx1", rx_buffers=512, rx_capacity=512, rx_queues="rxq1", tx_region="tx1", tx_buffers=512, tx_capacity=512, tx_queues="txq1"},
]
[serial]
driver = "uart"
rx_virt = "ser_rx"
tx_virt = "ser_tx"
rx_capacity = 256
rx_queues = "s_rx"
tx_capacity = 256
tx_queues = "s_tx"
client = [
 {pd="term0", rx_capacity=256, rx_queues="s_rx0", tx_capacity=256, tx_queues="s_tx0"},
 {pd="term1", rx_capacity=256, rx_queues="s_rx1", tx_capacity=256, tx_queues="s_tx1"},
]
[blk]
driver = "disk"
virt = "blkv"
capacity = 8
queues = "b_q"
region = "b_mbr"
client = [
 {pd="fs0", partition=0, region="b_d0", buffers=4, capacity=4, queues="b_q0"},
 {pd="fs1", partition=1, region="b_d1", buffers=4, capacity=4, queues="b_q1"},
]
"#;
