//! The descriptions of machines that gdb knows, in its XML. The numbers of registers are those of
//! `g`, `p` and `P`: r0 to r10 and pc, from 12 on r0 and so on once more, and behind them registers
//! that have no value, but for 64, how many moves lie before the state.

/// x86-64. gdb wants all registers of its feature `core`.
pub(crate) const X86_XML: &str = r#"<?xml version="1.0"?>
<!DOCTYPE target SYSTEM "gdb-target.dtd">
<target version="1.0">
<architecture>i386:x86-64</architecture>
<osabi>none</osabi>
<feature name="org.gnu.gdb.i386.core">
<reg name="rax" bitsize="64" type="int64" regnum="0"/>
<reg name="rdx" bitsize="64" type="int64"/>
<reg name="rcx" bitsize="64" type="int64"/>
<reg name="rbx" bitsize="64" type="int64"/>
<reg name="rsi" bitsize="64" type="int64"/>
<reg name="rdi" bitsize="64" type="int64"/>
<reg name="rbp" bitsize="64" type="data_ptr"/>
<reg name="rsp" bitsize="64" type="data_ptr"/>
<reg name="r8" bitsize="64" type="int64"/>
<reg name="r9" bitsize="64" type="int64"/>
<reg name="r10" bitsize="64" type="int64"/>
<reg name="rip" bitsize="64" type="code_ptr"/>
<reg name="r11" bitsize="64" type="int64" regnum="23"/>
<reg name="r12" bitsize="64" type="int64"/>
<reg name="r13" bitsize="64" type="int64"/>
<reg name="r14" bitsize="64" type="int64"/>
<reg name="r15" bitsize="64" type="int64"/>
<reg name="eflags" bitsize="32" type="int32"/>
<reg name="cs" bitsize="32" type="int32"/>
<reg name="ss" bitsize="32" type="int32"/>
<reg name="ds" bitsize="32" type="int32"/>
<reg name="es" bitsize="32" type="int32"/>
<reg name="fs" bitsize="32" type="int32"/>
<reg name="gs" bitsize="32" type="int32"/>
<reg name="st0" bitsize="80" type="i387_ext"/>
<reg name="st1" bitsize="80" type="i387_ext"/>
<reg name="st2" bitsize="80" type="i387_ext"/>
<reg name="st3" bitsize="80" type="i387_ext"/>
<reg name="st4" bitsize="80" type="i387_ext"/>
<reg name="st5" bitsize="80" type="i387_ext"/>
<reg name="st6" bitsize="80" type="i387_ext"/>
<reg name="st7" bitsize="80" type="i387_ext"/>
<reg name="fctrl" bitsize="32" type="int" group="float"/>
<reg name="fstat" bitsize="32" type="int" group="float"/>
<reg name="ftag" bitsize="32" type="int" group="float"/>
<reg name="fiseg" bitsize="32" type="int" group="float"/>
<reg name="fioff" bitsize="32" type="int" group="float"/>
<reg name="foseg" bitsize="32" type="int" group="float"/>
<reg name="fooff" bitsize="32" type="int" group="float"/>
<reg name="fop" bitsize="32" type="int" group="float"/>
</feature>
<feature name="bpfdb.bpf">
<reg name="r0" bitsize="64" type="int64" regnum="12"/>
<reg name="r1" bitsize="64" type="int64"/>
<reg name="r2" bitsize="64" type="int64"/>
<reg name="r3" bitsize="64" type="int64"/>
<reg name="r4" bitsize="64" type="int64"/>
<reg name="r5" bitsize="64" type="int64"/>
<reg name="r6" bitsize="64" type="int64"/>
<reg name="r7" bitsize="64" type="int64"/>
<reg name="moves" bitsize="64" type="uint64" regnum="64"/>
</feature>
</target>
"#;

/// RISC-V of 64 bits. gdb wants all registers of its feature `cpu`.
pub(crate) const RISCV_XML: &str = r#"<?xml version="1.0"?>
<!DOCTYPE target SYSTEM "gdb-target.dtd">
<target version="1.0">
<architecture>riscv:rv64</architecture>
<osabi>none</osabi>
<feature name="org.gnu.gdb.riscv.cpu">
<reg name="zero" bitsize="64" type="int64" regnum="0"/>
<reg name="ra" bitsize="64" type="int64"/>
<reg name="sp" bitsize="64" type="int64"/>
<reg name="gp" bitsize="64" type="int64"/>
<reg name="tp" bitsize="64" type="int64"/>
<reg name="t0" bitsize="64" type="int64"/>
<reg name="t1" bitsize="64" type="int64"/>
<reg name="t2" bitsize="64" type="int64"/>
<reg name="fp" bitsize="64" type="int64"/>
<reg name="s1" bitsize="64" type="int64"/>
<reg name="a0" bitsize="64" type="int64"/>
<reg name="a1" bitsize="64" type="int64" regnum="23"/>
<reg name="a2" bitsize="64" type="int64"/>
<reg name="a3" bitsize="64" type="int64"/>
<reg name="a4" bitsize="64" type="int64"/>
<reg name="a5" bitsize="64" type="int64"/>
<reg name="a6" bitsize="64" type="int64"/>
<reg name="a7" bitsize="64" type="int64"/>
<reg name="s2" bitsize="64" type="int64"/>
<reg name="s3" bitsize="64" type="int64"/>
<reg name="s4" bitsize="64" type="int64"/>
<reg name="s5" bitsize="64" type="int64"/>
<reg name="s6" bitsize="64" type="int64"/>
<reg name="s7" bitsize="64" type="int64"/>
<reg name="s8" bitsize="64" type="int64"/>
<reg name="s9" bitsize="64" type="int64"/>
<reg name="s10" bitsize="64" type="int64"/>
<reg name="s11" bitsize="64" type="int64"/>
<reg name="t3" bitsize="64" type="int64"/>
<reg name="t4" bitsize="64" type="int64"/>
<reg name="t5" bitsize="64" type="int64"/>
<reg name="t6" bitsize="64" type="int64"/>
<reg name="pc" bitsize="64" type="code_ptr" regnum="11"/>
</feature>
<feature name="bpfdb.bpf">
<reg name="r0" bitsize="64" type="int64" regnum="12"/>
<reg name="r1" bitsize="64" type="int64"/>
<reg name="r2" bitsize="64" type="int64"/>
<reg name="r3" bitsize="64" type="int64"/>
<reg name="r4" bitsize="64" type="int64"/>
<reg name="r5" bitsize="64" type="int64"/>
<reg name="r6" bitsize="64" type="int64"/>
<reg name="r7" bitsize="64" type="int64"/>
<reg name="r8" bitsize="64" type="int64"/>
<reg name="r9" bitsize="64" type="int64"/>
<reg name="r10" bitsize="64" type="int64"/>
<reg name="moves" bitsize="64" type="uint64" regnum="64"/>
</feature>
</target>
"#;
