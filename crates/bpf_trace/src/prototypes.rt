//! How many arguments the kernel's helpers take.
ghost use Rattle.std.specs.Prelude.{◌≡◌};
ghost use Rattle.bpf_trace.specs.Prototypes.{count_of, four_names, none_names, one_names, three_names, two_names};

use crate::name_list::is_in;

/// The helpers that take no argument (Linux, include/uapi/linux/bpf.h): a line each, in the order of
/// their numbers.
const NONE: &[u8] = b"bpf_ktime_get_ns
bpf_get_prandom_u32
bpf_get_smp_processor_id
bpf_get_current_pid_tgid
bpf_get_current_uid_gid
bpf_get_current_task
bpf_get_numa_node_id
bpf_get_current_cgroup_id
bpf_jiffies64
bpf_ktime_get_boot_ns
bpf_get_current_task_btf
bpf_ktime_get_coarse_ns
bpf_get_retval
bpf_ktime_get_tai_ns";

/// Those that take one.
const ONE: &[u8] = b"bpf_get_cgroup_classid
bpf_skb_vlan_pop
bpf_get_route_realm
bpf_get_hash_recalc
bpf_set_hash_invalid
bpf_get_socket_cookie
bpf_get_socket_uid
bpf_rc_repeat
bpf_skb_cgroup_id
bpf_sk_release
bpf_spin_lock
bpf_spin_unlock
bpf_sk_fullsock
bpf_tcp_sock
bpf_skb_ecn_set_ce
bpf_get_listener_sock
bpf_send_signal
bpf_send_signal_thread
bpf_get_netns_cookie
bpf_get_current_ancestor_cgroup_id
bpf_sk_cgroup_id
bpf_skc_to_tcp6_sock
bpf_skc_to_tcp_sock
bpf_skc_to_tcp_timewait_sock
bpf_skc_to_tcp_request_sock
bpf_skc_to_udp6_sock
bpf_skb_cgroup_classid
bpf_this_cpu_ptr
bpf_sock_from_file
bpf_sys_close
bpf_timer_cancel
bpf_get_func_ip
bpf_get_attach_cookie
bpf_task_pt_regs
bpf_skc_to_unix_sock
bpf_get_func_arg_cnt
bpf_set_retval
bpf_xdp_get_buff_len
bpf_skc_to_mptcp_sock";

/// Those that take two.
const TWO: &[u8] = b"bpf_map_lookup_elem
bpf_map_delete_elem
bpf_get_current_comm
bpf_perf_event_read
bpf_redirect
bpf_skb_change_type
bpf_current_task_under_cgroup
bpf_skb_pull_data
bpf_csum_update
bpf_xdp_adjust_head
bpf_set_hash
bpf_xdp_adjust_meta
bpf_override_return
bpf_sock_ops_cb_flags_set
bpf_msg_apply_bytes
bpf_msg_cork_bytes
bpf_xdp_adjust_tail
bpf_get_local_storage
bpf_skb_ancestor_cgroup_id
bpf_map_pop_elem
bpf_map_peek_elem
bpf_sk_storage_delete
bpf_tcp_send_ack
bpf_sk_ancestor_cgroup_id
bpf_ringbuf_submit
bpf_ringbuf_discard
bpf_ringbuf_query
bpf_csum_level
bpf_inode_storage_delete
bpf_per_cpu_ptr
bpf_redirect_peer
bpf_task_storage_delete
bpf_bprm_opts_set
bpf_timer_set_callback
bpf_get_func_ret
bpf_kptr_xchg
bpf_ringbuf_submit_dynptr
bpf_ringbuf_discard_dynptr
bpf_tcp_raw_check_syncookie_ipv4
bpf_tcp_raw_check_syncookie_ipv6
bpf_cgrp_storage_delete";

/// Those that take three.
const THREE: &[u8] = b"bpf_probe_read
bpf_tail_call
bpf_clone_redirect
bpf_skb_vlan_push
bpf_get_stackid
bpf_skb_get_tunnel_opt
bpf_skb_set_tunnel_opt
bpf_skb_change_proto
bpf_skb_under_cgroup
bpf_probe_write_user
bpf_skb_change_tail
bpf_skb_change_head
bpf_probe_read_str
bpf_redirect_map
bpf_perf_prog_read_value
bpf_bind
bpf_lwt_seg6_adjust_srh
bpf_map_push_elem
bpf_rc_pointer_rel
bpf_sysctl_get_current_value
bpf_sysctl_get_new_value
bpf_sysctl_set_new_value
bpf_probe_read_user
bpf_probe_read_kernel
bpf_probe_read_user_str
bpf_probe_read_kernel_str
bpf_sk_assign
bpf_seq_write
bpf_ringbuf_reserve
bpf_reserve_hdr_opt
bpf_d_path
bpf_copy_from_user
bpf_ima_inode_hash
bpf_sys_bpf
bpf_timer_init
bpf_timer_start
bpf_get_branch_snapshot
bpf_strncmp
bpf_get_func_arg
bpf_skb_set_tstamp
bpf_ima_file_hash
bpf_map_lookup_percpu_elem
bpf_dynptr_data
bpf_tcp_raw_gen_syncookie_ipv4
bpf_tcp_raw_gen_syncookie_ipv6";

/// Those that take four.
const FOUR: &[u8] = b"bpf_map_update_elem
bpf_skb_get_tunnel_key
bpf_skb_set_tunnel_key
bpf_skb_load_bytes
bpf_skb_adjust_room
bpf_sk_redirect_map
bpf_sock_map_update
bpf_perf_event_read_value
bpf_msg_redirect_map
bpf_msg_pull_data
bpf_get_stack
bpf_fib_lookup
bpf_sock_hash_update
bpf_msg_redirect_hash
bpf_sk_redirect_hash
bpf_lwt_push_encap
bpf_lwt_seg6_store_bytes
bpf_lwt_seg6_action
bpf_rc_keydown
bpf_sk_select_reuseport
bpf_msg_push_data
bpf_msg_pop_data
bpf_sysctl_get_name
bpf_strtol
bpf_strtoul
bpf_sk_storage_get
bpf_read_branch_records
bpf_get_ns_current_pid_tgid
bpf_ringbuf_output
bpf_get_task_stack
bpf_load_hdr_opt
bpf_store_hdr_opt
bpf_inode_storage_get
bpf_seq_printf_btf
bpf_redirect_neigh
bpf_task_storage_get
bpf_for_each_map_elem
bpf_btf_find_by_name_kind
bpf_trace_vprintk
bpf_kallsyms_lookup_name
bpf_loop
bpf_xdp_load_bytes
bpf_xdp_store_bytes
bpf_dynptr_from_mem
bpf_ringbuf_reserve_dynptr
bpf_user_ringbuf_drain
bpf_cgrp_storage_get";

/// The list of those that take no argument.
#[tactic(auto, unfolding(crate::specs::Prototypes::none_names))]
fn none() -> &'static [u8]
    ensures { result.now ≡ none_names }
{
    NONE
}

/// The list of those that take one.
#[tactic(auto, unfolding(crate::specs::Prototypes::one_names))]
fn one() -> &'static [u8]
    ensures { result.now ≡ one_names }
{
    ONE
}

/// The list of those that take two.
#[tactic(auto, unfolding(crate::specs::Prototypes::two_names))]
fn two() -> &'static [u8]
    ensures { result.now ≡ two_names }
{
    TWO
}

/// The list of those that take three.
#[tactic(auto, unfolding(crate::specs::Prototypes::three_names))]
fn three() -> &'static [u8]
    ensures { result.now ≡ three_names }
{
    THREE
}

/// The list of those that take four.
#[tactic(auto, unfolding(crate::specs::Prototypes::four_names))]
fn four() -> &'static [u8]
    ensures { result.now ≡ four_names }
{
    FOUR
}

/// How many arguments the function of a name takes: 5 where it is none of these helpers.
pub fn count_of(name: &[u8]) -> u8
    ensures { result ≡ count_of name.now }
{
    if is_in(two(), name) {
        2
    } else if is_in(three(), name) {
        3
    } else if is_in(four(), name) {
        4
    } else if is_in(one(), name) {
        1
    } else if is_in(none(), name) {
        0
    } else {
        5
    }
}
